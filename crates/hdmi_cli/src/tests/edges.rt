//! Words that name nothing, lines at the limits of their lengths, and captures that have no alignment, noise, a line that is too long or
//! no place for a damage.
//! Words, input, status, output and note; the expected values were computed apart from this program. A field's parts stand between `~`,
//! each as often as the number after its `*` says.

/// 19 runs.
pub(super) static ROWS: &[u8] = b"
|c 00 4/c 04 8/v ff0000/c 00 12/end/|2||usage: make, recover, check, damage or sample/
make|c 00 4/c 04 8/v ff0000/c 00 12/end/|2||usage: make, recover, check, damage or sample/
link make|c 00 4/c 04 8/v ff0000/c 00 12/end/|2||usage: make, recover, check, damage or sample/
make link x|c 00 4/c 04 8/v ff0000/c 00 12/end/|2||usage: make, recover, check, damage or sample/
Make link|c 00 4/c 04 8/v ff0000/c 00 12/end/|2||usage: make, recover, check, damage or sample/
recover|c 00 4/c 04 8/v ff0000/c 00 12/end/|2||usage: make, recover, check, damage or sample/
make link --skew 0,1|c 00 4/c 04 8/v ff0000/c 00 12/end/|2||usage: make, recover, check, damage or sample/
make link --offset=7 --offset 7|c 00 4/c 04 8/v ff0000/c 00 12/end/|2||usage: make, recover, check, damage or sample/
recover link --offset 7|c 00 4/c 04 8/v ff0000/c 00 12/end/|2||usage: make, recover, check, damage or sample/
damage 3:0:000|c 00 4/c 04 8/v ff0000/c 00 12/end/|2||usage: make, recover, check, damage or sample/
sample 1|c 00 4/c 04 8/v ff0000/c 00 12/end/|2||usage: make, recover, check, damage or sample/
make link|v ~0*32766~/|3||input: line 1 range/
make link|v ~0*32772~/|3||input: line 1 form/
recover link|#544d433100000188a69a6aaaa9a69a6aaaa9a69a6aaaa9a69a6aaaa9a69a6aaaa9a69a6aaaa9a69a6aaaa9a69a6aaa99651620aaa9a69a6aaa534d35d554534d35d554534d35d554534d35d554afb2ca2aabacb2ca2aabcc34134054534d35d554534d35d554534d35d5a69a6aaaa9a69a6aaaa9a69a6aaaa9a69a6aaaa9a69a6aaaa9a69a6aaaa9a69a6aaaa9a69a6aaa99651640aaa9a69a6aaa|7||no alignment/
recover link|#544d433100000000|7||no alignment/
recover link|#544d4331000000fa54534d35d554534d35d554534d35d500504d35d554534d35d554534d35d5540354534d35d554534d35d554534d35d500504d35d554534d35d554534d35d5540354534d35d554534d35d554534d35d500504d35d554534d35d554534d35d55403|1|c 00 12/! noise 12/c 00 12/end/|
recover link|#544d43310000a10e54534d35d554534d35d554534d35d5cc320b~d0ff00fd0fd0ff00fd0f1040ff03f43f40ff03f43f4000fd0fd0ff00fd0fd0ff0001f43f40ff03f43f40ff0304*90~d0ff00fd0fd0ff00fd0f1040ff03f43f40ff03f43f4000fd0fd0ff0054534d35d5abacb2ca2aabacb2ca2a33cd~04d0ff00fd0fd0ff00fd0f1040ff03f43f40ff03f43f4000fd0fd0ff00fd0fd0ff0001f43f40ff03f43f40ff03*90~04d0ff00fd0fd0ff00fd0f1040ff03f43f40ff03f43f4000fd0fd0ff0054534d35d554534d35d554534d35d5cc320b~d0ff00fd0fd0ff00fd0f1040ff03f43f40ff03f43f4000fd0fd0ff00fd0fd0ff0001f43f40ff03f43f40ff0304*113~d0ff00fd0fd0ff00fd0f1040ff03f43f40ff03f43f4000fd0fd0ff00fd0fd0ff0001f43fd554534d35d554534d35d554534d35~fd0fd0ff0001f43f40ff03f43f40ff0304d0ff00fd0fd0ff00fd0f1040ff03f43f40ff03f43f4000fd0fd0ff00*23~fd0fd0ff0001f43fd554534d35d554534d35d554534d35~fd0fd0ff0001f43f40ff03f43f40ff0304d0ff00fd0fd0ff00fd0f1040ff03f43f40ff03f43f4000fd0fd0ff00*23~fd0fd0ff0001f43fd554534d35d554534d35d554534d35|1|c 00 4/c 04 8/v ~000000*4096~/! longline 12/c 00 12/end/|
damage 0:260:000 1:261:000|#544d43310000010e54534d35d554534d35d554534d35d5cc320b10d554534d35d554534d35d554534d3554534d35d5abacb2ca2aabacb2ca2a33cd0410d554534d35d554534d35d554534d3554534d35d554534d35d554534d35d5cc320b20d554534d35d554534d35d554534d35|3||input: place 1/
damage 0:0:000|#544d43310000010e54534d35d554534d35d554534d35d5cc320b10d554534d35d554534d35d554534d3554534d35d5abacb2ca2aabacb2ca2a33cd0410d554534d35d554534d35d554534d3554534d35d554534d35d554534d35d5cc320b20d554534d35d554534d35d554534d|3|#544d43310000010e|input: short 109/
";
