//! Listings that are refused and made, and captures that are recovered and refused, whatever the pieces that they are read in.
//! Words, input, status, output and note; the expected values were computed apart from this program.

/// 78 runs.
pub(super) static ROWS: &[u8] = b"
make link|c 00 3/c 04 8/v ff0000/c 00 12/end/|3||input: line 3 control/
make link|c 00 12/v ff0000/|3||input: line 2 preamble/
make link|c 40 12/|3||input: line 1 range/
make link||3||input: line 1 unended/
make link|c 00 4/c 04 8/v ff0000/c 00 12/end/x|3||input: line 6 after/
make link|c 00 12/! noise 3/|3||input: line 2 fault/
make link|c 00 12/cut 3/|3||input: line 2 fault/
make link|c 00 12/!noise/|3||input: line 2 form/
make link|c 00 12/! |3||input: line 2 fault/
make link|c 00 12/!|3||input: line 2 form/
make link|c 00 12/cut|3||input: line 2 form/
make link|c 00 12/cut |3||input: line 2 fault/
make link|c 00 12/en|3||input: line 2 form/
make link|c 00 12/end|3||input: line 2 unended/
make link|c 00 12/|3||input: line 2 unended/
make link|/|3||input: line 1 form/
make link|c 00 12//end/|3||input: line 2 form/
make link|end/|3||input: line 1 order/
make link|v ff0000/|3||input: line 1 order/
make link|v /|3||input: line 1 range/
make link|v/|3||input: line 1 form/
make link|v ff00/|3||input: line 1 form/
make link|v ff000g/|3||input: line 1 form/
make link|v ff0000 /|3||input: line 1 form/
make link|c 00 4/c 04 8/v /|3||input: line 3 range/
make link|c 0 12/|3||input: line 1 form/
make link|c 00 /|3||input: line 1 form/
make link|c 00 00000000012/end/|3||input: line 1 form/
make link|c 00 0/|3||input: line 1 range/
make link|c 00 20000001/|3||input: line 1 range/
make link|c 00 20000000/c 00 1/|3||input: line 2 long/
make link|c 3g 12/|3||input: line 1 form/
make link|c 00 -1/|3||input: line 1 form/
make link|c 00 1 2/|3||input: line 1 form/
make link|c  00 12/|3||input: line 1 form/
make link|C 00 12/|3||input: line 1 form/
make link|c 00 12\r/end/|3||input: line 1 form/
make link|c 00 11/end/|3||input: line 2 control/
make link|c 00 12/c 04 7/v 000000/|3||input: line 3 preamble/
make link|c 04 12/v 000000/end/|3||input: line 3 order/
make link|c 04 12/v 000000/v 000000/|3||input: line 3 order/
make link|c 04 12/v 000000/c 00 11/end/|3||input: line 4 control/
make link|c 04 12/v 000000/c 00 12/end//|3||input: line 5 after/
make link|c 04 12/c 00 1/v 000000/|3||input: line 3 preamble/
make link|i 00/|3||input: line 1 order/
make link|p 00/|3||input: line 1 form/
make link|e 00/|3||input: line 1 order/
make link|c 00 12/end/end/|3||input: line 3 after/
make link|c 04 12/v 00000/|3||input: line 2 form/
make link|c 00 19999988/c 04 11/v 000000/|3||input: line 3 long/
make link|c 00 19999985/c 04 12/v 000000/|3||input: line 4 unended/
make link|c 00 9999999999/|3||input: line 1 range/
make link|c 00 4294967296/|3||input: line 1 range/
make link|c 00 12 /|3||input: line 1 form/
make link| c 00 12/|3||input: line 1 form/
make link|end /|3||input: line 1 form/
make link|endx/|3||input: line 1 form/
make link|c 00 4/c 04 8/v FF0000/c 00 12/end/|0|#544d43310000010e54534d35d554534d35d554534d35d5cc320b10d554534d35d554534d35d554534d3554534d35d5abacb2ca2aabacb2ca2a33cd0410d554534d35d554534d35d554534d3554534d35d554534d35d554534d35d5cc320b20d554534d35d554534d35d554534d35|
make link|c 00 0000000012/end/|0|#544d43310000007854534d35d554534d35d554534d35d554534d35d554534d35d554534d35d554534d35d554534d35d554534d35d5|
make link|c 3F 12/end/|0|#544d433100000078abaebaeaaaabaebaeaaaabaebaeaaaabaebaeaaaabaebaeaaaabaebaeaaaabaebaeaaaabaebaeaaaabaebaeaaa|
make link|c 07 12/v 000000/c 00 12/end/|0|#544d43310000010eabaebaeaaaabaebaeaaaabaebaeaaacc320b10d554534d35d554534d35d554534d35abacb2ca2aabacb2ca2aabacb2ca2a33cd0410d554534d35d554534d35d554534d3554534d35d554534d35d554534d35d5cc320b10d554534d35d554534d35d554534d35|
make link|c 04 4/c 05 4/c 06 2/c 07 2/v 010203/c 00 12/end/|0|#544d43310000010e54534d35d5abacb2ca2a5451b5eaaacc321b10d554534d35d554534d35d554534d35abacb2ca2aabacb2ca2aabacb2ca2a33cde41fd554534d35d554534d35d554534d3554534d35d554534d35d554534d35d5cc32fb1fd554534d35d554534d35d554534d35|
make link|c 00 12/end/|0|#544d43310000007854534d35d554534d35d554534d35d554534d35d554534d35d554534d35d554534d35d554534d35d554534d35d5|
recover link|#544d43310000010e54534d35d554534d35d554534d35d5cc320b10d554534d35d554534d35d554534d3554534d35d5abacb2ca2aabacb2ca2a33cd0410d554534d35d554534d35d554534d3554534d35d554534d35d554534d35d5cc320b20d554534d35d554534d35d554534d35|0|c 00 4/c 04 8/v ff0000/c 00 12/end/|
recover link|#|3||input: short 0/
recover link|#544d|3||input: short 2/
recover link|#544d43|3||input: short 3/
recover link|#544d4331000001|3||input: short 7/
recover link|#544d43310000010e|3||input: short 8/
recover link|#544d58|3||input: magic 2/
recover link|#5458|3||input: magic 1/
recover link|#00|3||input: magic 0/
recover link|#544d4339|3||input: version 57/
recover link|#544d43310000010e54534d35d554534d35d554534d35d5cc320b10d554534d35d554534d35d554534d3554534d35d5abacb2ca2aabacb2ca2a33cd0410d554534d35d554534d35d554534d3554534d35d554534d35d554534d35d5cc320b20d554534d35d554534d35d554534d3500|3|c 00 4/c 04 8/v ff0000/|input: trailing 110/
recover link|#544d43310000010e54534d35d554534d35d554534d35d5cc320b10d554534d35d554534d35d554534d3554534d35d5abacb2ca2aabacb2ca2a33cd0410d554534d35d554534d35d554534d3554534d35d554534d35d554534d35d5cc320b20d554534d35d554534d35d554534d355453|3|c 00 4/c 04 8/v ff0000/|input: trailing 110/
recover link|#544d43310000010e54534d35d554534d35d554534d35d5cc320b10d554534d35d554534d35d554534d3554534d35d5abacb2ca2aabacb2ca2a33cd0410d554534d35d554534d35d554534d3554534d35d554534d35d554534d35d5cc320b20d554534d35d554534d35d554534d|3||input: short 109/
recover link|#544d43310000010e54534d35d554534d35d554534d35d5cc320b10d554534d35d554534d35d554534d3554534d35d5abacb2ca2aabacb2ca2a33cd0410d554534d35d554534d35d554534d3554534d35d554534d35d554534d35d5cc320b20d554534d35d554534d35d554534d75|3||input: padding 109/
recover link|#544d43310000010e54534d35d554534d35d554534d35d5cc320b10d554534d35d554534d35d554534d3554534d35d5abacb2ca2aabacb2ca2a33cd0410d554534d35d554534d35d554534d3554534d35d554534d35d554534d35d5cc320b20d554534d35d554534d35d554534d7500|3||input: padding 109/
";
