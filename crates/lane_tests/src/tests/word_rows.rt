//! Rows, their locks and their edges, as they were computed apart from `lane_align`.
//! Fields: what the row shows; its lock, where it has one; its edges in order; how many bits it has; and its bits, eight to a byte, the
//! first lowest.
pub(crate) static CASES: &str = "\
no bit|||0|
worked tap, lane 0|3|313|393|a69a6aaaa9a69a6aaaa9a69a6aaaa9a69a6aaaa9a69a6aaaa9a69a6aaaa9a69a6aaaa9a69a6aaa99651620aaa9a69a6aaa01
worked tap, lane 1|3|243|393|a69a6aaaa9a69a6aaaa9a69a6aaaa9a69a6aaaa95e65955556596595555699692680a8a69a6aaaa9a69a6aaaa9a69a6aaa01
worked tap, lane 2|8|278|393|d554534d35d554534d35d554534d35d554534d35d554534d35d554534d35d554534d35b3cc024835d554534d35d554534d01
worked tap of 71, lane 1|9|249|399|aaa9a69a6aaaa9a69a6aaaa9a69a6aaaa9a69a6aaa57596595555659659555669a0920aaa9a69a6aaaa9a69a6aaaa9a69a6a
worked tap of 71, lane 2|0|320|399|54534d35d554534d35d554534d35d554534d35d554534d35d554534d35d554534d35d554534d35d5cc320b20d554534d3555
twelve words alone|0||120|545145f5aaab50bd0ad554adbacaaa
eleven words|||140|54af42f52aab52b5caaaab50bdca3fff8c05
twelve words and nine bits|0||129|abac4235d5abacb2ca2a5451b5ca2a1e01
twelve words and one|0|120|130|abac4a15d554adbaca2a54514d1555ff00
behind three bits|3|133 263|283|a59a2aaaa9a28aaa55a95a65d55557a19a59aaa95a95ea55a95a95ea55a95e6515717902
eleven words, then twelve|120|240 510|520|ab52451555ab524d155554af4ab5635451b50a5554514d155554ad42f52a39adba0ad554af4af52a5451b5eaaa71514df5aa54adb2ca2aab52bdcaaa54ad42759c
a run that is not a multiple of ten past the lock|1|121|345|a95a65d555565d95aa55a9a26ad555e312d751666d9555a95a85ea55a9a28a6aaaa8a68a2aaa56653627ce00
noise before|87|247 447 587|597|fcbfe33a42501e3935d651aa56a59a2aaaa9a29a2aaaa8a26a955557a56ad5b83cfac7518086752c2eaaa9a27a55aaa95a85aa55575d759561735a75d55557a18aaa55a95a956aaaa81a16
a hurt word in a run|70|190 480|490|54adb22ad554af5af52a5451bdcaaa54af4ad52aab52bdcab0ccae421555abaeaa0ad554af42155554fd9313d5ab5245d52a54534dd5aa54af42f5aa7102
one word over and over|6|296 426|436|eaaaabaebaeaaaabaebaeaaaabaebaeaaaabaebaeaaaabaebaeaaaabaebaeaaaabaebaeaaaaa5245155554514515555451451555540104";
