//! Words of the command line, and what they name.

/// 401 rows: the command that the words name, then the words, with a bar before each.
pub(crate) static ROWS: &str = "
none
none|make
make link 1 0 0,0,0 all|make|link
make content 1 0 0,0,0 all|make|content
make dvi 1 0 0,0,0 all|make|dvi
none|make|link|content
none|make|link|link
none|make|lin
none|make|Link
none|mak|link
none|Make|link
none|link|make
recover link|recover|link
recover content|recover|content
none|recover
none|recover|link|content
none|recover|link|--offset|5
none|recover|--offset=5|link
recover track|recover|track
recover link|recover|--|link
recover link|recover|link|--
none|recover|-|link
none|recover|-
check|check
none|check|check
check|check|--
none|check|--|x
none|check|--|--
none|check|-
none|check|--version
none|check|--version|1
none|check|--offset=1
none|check|--help
none|check|-h
none|help
none|--help
none|-h
none|--version
none|version
none|help|make
none|make|help
none|make|--help
none|make|link|--help
none|make|link|-h
none|make|link|--version
none|make|--version|link
none|--version|1
none|--offset|5|make|link
none|--|make|link
none|--
none|--|check
none|-
make link 1 5 0,0,0 all|make|link|--offset|5
make link 1 5 0,0,0 all|make|--offset|5|link
make link 1 5 0,0,0 all|make|link|--offset=5
make link 1 5 0,0,0 all|make|--offset=5|link
make link 1 5 0,0,0 all|make|--offset|5|--|link
make link 1 0 0,0,0 all|make|--|link
make link 1 0 0,0,0 all|make|link|--
none|make|--|link|--
none|make|--|link|--offset|5
none|make|link|--|--offset|5
none|make|--|--offset|5|link
none|make|--|--|link
none|make|--offset|--|link
none|make|--offset|--|5|link
none|make|--offset|link
none|make|link|--offset
none|make|link|--offset|5|--offset|5
none|make|link|--offset=5|--offset=6
none|make|--offset|5|link|--offset=5
none|make|link|--skew|1,2,3|--skew=1,2,3
none|make|link|--bits|1|--bits|2
none|make|link|--version|1|--version=2
none|make|link|--off|5
none|make|link|--off=5
none|make|link|--offse|5
none|make|link|--offsets|5
none|make|link|--Offset|5
none|make|link|-offset|5
none|make|link|offset=5
none|make|link|---offset|5
none|make|link|--offset=|5
none|make|link|--offset=
none|make|link|--=5
none|make|link|--offset==5
none|make|link|--skew:1,2,3
none|make|link|--verbose|1
none|make|link|--o|5
none|make|link|--offset|-5
none|make|link|--offset=-5
none|make|link|--offset|-
none|make|link|--offset=-
none|make|link|--offset|+5
none|make|link|--offset=+5
none|make|link|--offset|5x
none|make|link|--offset|0x5
none|make|link|--offset|1_000
none|make|link|--offset|1.5
none|make|link|--offset|٥
make link 1 0 0,0,0 all|make|link|--offset|0
make link 1 7 0,0,0 all|make|link|--offset|007
make link 1 7 0,0,0 all|make|link|--offset|0000000007
none|make|link|--offset|00000000007
make link 1 4294967295 0,0,0 all|make|link|--offset|4294967295
none|make|link|--offset|4294967296
none|make|link|--offset|9999999999
none|make|link|--offset|99999999999
make link 1 0 0,0,0 0|make|link|--bits|0
make link 1 0 0,0,0 4294967295|make|link|--bits=4294967295
none|make|link|--bits=4294967296
make link 1 0 0,0,0 7|make|link|--bits|007
none|make|link|--bits=
none|make|link|--bits|-1
make link 1 0 0,0,0 all|make|link|--skew|0,0,0
make link 1 0 0,70,35 all|make|link|--skew=0,70,35
make link 1 0 4095,4095,4095 all|make|link|--skew|4095,4095,4095
none|make|link|--skew|4096,0,0
none|make|link|--skew|0,4096,0
none|make|link|--skew|0,0,4096
none|make|link|--skew|1,2
none|make|link|--skew|1,2,3,4
none|make|link|--skew|1,,3
none|make|link|--skew|,1,2
none|make|link|--skew|1,2,
make link 1 0 1,2,3 all|make|link|--skew|01,002,0000000003
none|make|link|--skew|-1,2,3
none|make|link|--skew|1,-2,3
none|make|link|--skew|1;2;3
none|make|link|--skew|5
none|make|link|--skew|5000,0,0
make link 1 0 0,0,0 all|make|link|--version|1
make link 2 0 0,0,0 all|make|link|--version|2
make link 2 0 0,0,0 all|make|link|--version=2
make link 1 0 0,0,0 all|make|link|--version|01
make link 2 0 0,0,0 all|make|link|--version=0000000002
none|make|link|--version|0
none|make|link|--version|3
none|make|link|--version=3
none|make|link|--version|-1
none|make|link|--version=
none|make|link|--version|00000000001
make link 2 7 1,2,3 300|make|--version|2|--bits|300|--skew|1,2,3|--offset|7|link
make link 1 7 0,70,35 all|make|--skew=0,70,35|link|--offset|7
make link 1 7 0,70,35 all|make|link|--skew=0,70,35|--offset|7
make content 1 3 3,2,1 9|make|content|--bits=9|--version=1|--offset=3|--skew=3,2,1
make content 2 4 1,2,3 1|make|--bits|1|content|--skew=1,2,3|--version|2|--offset=4
none|make|--bits|1|--skew|1,2,3|--version|2|--offset|4|content|link
none|make|--offset|5|5|link
none|make|--offset=5|5|link
none|damage
damage 0:0:0|damage|0:0:000
damage 1:2:1023|damage|1:2:3ff
damage 2:4294967295:1023|damage|2:4294967295:3Ff
damage 0:0:1023 1:1:171 2:2:2|damage|0:0:3FF|1:1:0aB|2:2:002
damage 0:0:0 0:0:0|damage|0:0:000|0:0:000
none|damage|3:0:000
none|damage|9:0:000
none|damage|00:0:000
none|damage|0:0:400
none|damage|0:0:fff
none|damage|0:0:FFF
none|damage|0:0:00
none|damage|0:0:0000
none|damage|0:0:00g
none|damage|0:0:+00
none|damage|0:0:-00
none|damage|0:4294967296:000
damage 0:7:0|damage|0:0000000007:000
none|damage|0:00000000007:000
none|damage|0::000
none|damage|:0:000
none|damage|0:0:
none|damage|0:0
none|damage|0:0:000:0
none|damage|0:-1:000
none|damage|-1:0:000
none|damage|-0:0:000
damage 0:0:0|damage|--|0:0:000
damage 0:0:1 1:1:2|damage|0:0:001|--|1:1:002
none|damage|0:0:001|--|1:1:002|--|2:2:003
none|damage|--
none|damage|--|-
none|damage|0:0:000|--offset|5
none|damage|--offset=5|0:0:000
none|damage|0:0:000|1:0:400
none|damage|0:0:000|x
none|damage|0,0,000
none|sample
sample 2|sample|2
sample 20|sample|20
sample 2|sample|02
sample 2|sample|0000000002
sample 20|sample|0000000020
none|sample|0000000021
none|sample|9999999999
none|sample|00000000002
none|sample|1
none|sample|0
none|sample|21
none|sample|4294967298
none|sample|-2
none|sample|+2
none|sample|2|3
sample 2|sample|--|2
sample 2|sample|2|--
none|sample|--|2|--
none|sample|x
none|sample|2x
none|sample|--version|1|2
none|sample|2|--bits=3
none|
none|make|
none|make|link|
none|make||link
none||make|link
none|check|
none|recover|
none|damage|
none|damage|0:0:000|
none|sample|
none|make|link|--offset|
none|make|link|--skew=
none|make|link|--offset| 5
none|make|link|--offset|5 
none|make|link|--offset 5
none|make link
none| make|link
none|make|link 
none|make|link|--offset =5
none|make|link|--| 
none|recover|--version=2
read biphase|read|biphase
none|--bits=0000000007|content|3:0:000|recover
none|5|0:0:1|read|biphase
none|recover|biphase
none|recover|content|recover|biphase|0:5:9
none|recover|-h|link
none|recover|biphase|0:0:1
none|recover|biphase|sample|help|dvi
none|0:0:3Ff|--offset=|make|0
make link 2 0 0,70,35 all|make|--version|2|--skew=0,70,35|--|link
make link 2 42 0,0,0 all|make|link|--version|02|--offset=0042
make link 2 0 0,0,0 all|make|--version|2|link
make content 2 0 0,0,0 all|make|content|--version|2|--skew=0,0,0|--
make content 2 123457 0,0,0 all|make|--version|02|--offset|123457|content|--
make content 1 42 0,0,0 0|make|--version|1|--offset|0042|content|--bits=0
make link 1 7 1,2,3 4294967295|make|--offset|7|--bits|4294967295|--skew=1,02,003|--|link
make content 1 42 0,0,0 all|make|--offset=0042|content|--skew|0,0,0|--
make link 1 0 0,0,0 0|make|--bits|0|--version|1|link|--skew|0,0,0
make content 1 4294967295 0,0,0 all|make|--skew|0,0,0|content|--offset=4294967295|--
make content 1 0 0,0,0 0|make|--bits=0|--|content
make content 2 123457 4095,4094,1 4294967295|make|--bits=4294967295|--skew=4095,4094,1|--offset=123457|--version=02|content
make link 1 4294967295 0,0,0 all|make|--offset=4294967295|--|link
make content 2 0 0,0,0 4294967295|make|--skew=0,0,0|--version|2|content|--bits=4294967295
make content 1 0 0,0,0 0|make|--bits|0|--version|1|content
make content 2 0 0,0,0 300|make|--skew=0,0,0|--version=02|content|--bits=300|--
make link 2 7 0,0,0 4294967295|make|--version|02|--offset|7|--bits=4294967295|link
make link 1 42 0,0,0 all|make|link|--offset|0042|--skew=0,0,0
make content 1 0 0,0,0 all|make|--offset|0|content
make link 2 4294967295 0,0,0 4294967295|make|link|--offset=4294967295|--bits|4294967295|--version|02
make content 1 0 0,0,0 0|make|content|--bits|0
make link 2 0 0,0,0 0|make|--version|02|--bits|0|link|--
make link 2 0 4095,4094,1 0|make|--version=02|--skew=4095,4094,1|--bits=0|link
make link 1 0 0,0,0 all|make|--version=1|link
make content 1 4294967295 0,0,0 all|make|content|--offset=4294967295
make dvi 1 5 0,0,0 all|make|dvi|--offset|5
make dvi 1 5 0,0,0 all|make|--offset=5|dvi
make dvi 2 7 1,2,3 300|make|--version|2|--bits|300|--skew|1,2,3|--offset|7|dvi
make dvi 1 0 0,0,0 all|make|--|dvi
none|make|dvi|dvi
none|make|dvi|link
none|make|Dvi
none|make|dvi|--skew|4096,0,0
none|make|track
none|make|biphase
recover track|recover|track|--
recover relock|recover|relock
none|recover|relock|track
recover content relock|recover|content|relock
recover content relock|recover|--|content|relock
recover content relock|recover|content|--|relock
recover content relock|recover|content|relock|--
none|recover|content|relocks
none|recover|content|Relock
none|recover|content|--relock
none|recover|--relock|content
none|recover|content|
none|recover|content|0
none|recover|content|track
none|recover|content|content
none|recover|content|relock|relock
none|recover|relock|content
none|recover|link|relock
none|recover|biphase|relock
none|make|content|relock
recover track|recover|--|track
none|recover|track|link
none|recover|track|track
none|recover|tracks
recover dvi|recover|dvi
recover dvi|recover|--|dvi
none|recover|dvi|dvi
none|recover|dvi|--offset|5
recover biphase 0|recover|biphase|0
recover biphase 1|recover|biphase|1
recover biphase 2|recover|biphase|2
recover biphase 3|recover|biphase|3
none|recover|biphase|4
none|recover|biphase|9
none|recover|biphase|00
none|recover|biphase|01
none|recover|biphase|
none|recover|biphase|x
none|recover|biphase|/
none|recover|biphase|:
none|recover|biphase|-1
none|recover|biphase|+1
none|recover|biphase|٣
none|recover|biphase|0|1
none|recover|biphase|3|3
none|recover|0|biphase
none|recover|biphase|biphase
none|recover|link|0
none|recover|track|0
none|recover|dvi|3
none|recover|Biphase|0
recover biphase 3|recover|biphase|--|3
recover biphase 3|recover|--|biphase|3
recover biphase 3|recover|biphase|3|--
none|recover|biphase|--|--
none|recover|--pair|3|biphase
none|recover|biphase|--pair=3
none|recover|biphase0
none|recover|biphase 0
none|slip
slip 0:0:1|slip|0:0:1
slip 1:300:3|slip|1:300:3
slip 2:4294967295:9|slip|2:4294967295:9
slip 2:300:3|slip|2:300:3
slip 0:7:5|slip|0:0000000007:5
none|slip|0:00000000007:5
none|slip|0:4294967296:5
slip 0:7:5|slip|0:07:5
none|slip|0:0:0
none|slip|0:0:10
none|slip|0:0:01
none|slip|0:0:a
none|slip|0:0::
none|slip|0:0:/
none|slip|3:0:1
none|slip|9:0:1
none|slip|00:0:1
none|slip|0::1
none|slip|:0:1
none|slip|0:0:
none|slip|0:0
none|slip|0:0:1:1
none|slip|0:-1:1
none|slip|-1:0:1
none|slip|0:0:-1
none|slip|0:0:+1
none|slip|0:0:000
none|slip|0,0,1
none|slip|0:0:1|0:0:1
none|slip|0:0:1|1:1:2
slip 0:0:1|slip|--|0:0:1
slip 0:0:1|slip|0:0:1|--
none|slip|--|--
none|slip|0:0:1|--offset|5
none|slip|--bits=1|0:0:1
none|slip|
none|slip| 0:0:1
none|slip|0:0:1 
none|slip|0:0:1x
none|Slip|0:0:1
none|read
read biphase|read|--|biphase
read biphase|read|biphase|--
none|read|biphase|0
none|read|biphase|biphase
none|read|link
none|read|track
none|read|dvi
none|read|content
none|read|Biphase
none|read|
none|read|biphase|--version|1
none|read|--help
relay|relay
relay|relay|--
none|relay|--|--
none|relay|x
none|relay|
none|relay|link
none|relay|-
none|relay|--help
none|relay|--offset|5
none|Relay
none|track
none|biphase
none|dvi
none|slips
";
