//! Lists of reported events, with what is answered at each. An event is `run`, its value and how many columns it has,
//! and after `=` the width and the height of the frame that ends at it, if one does; a line, `loose` in a group that
//! does not count, `even` in one that counts and as wide as its first, `ragged` in one that counts and not so wide,
//! with its width and its number in the group; `fault`, of one word, which is not reported; or `other`.

/// A list in each row.
pub(crate) static LISTS: &str = "\
run 0 1
run 0 3
run 2 3
run 0 3; run 2 1
run 0 3; run 2 2; loose 4 0
run 0 3; run 2 3; even 4 0
run 0 3; run 2 3; even 4 0; even 4 1; run 0 3 = 4x2
run 0 3; run 2 3; even 4 0; even 4 1; run 0 2
run 0 3; run 2 3; even 4 0; even 4 1; run 0 1; even 4 2; run 0 1; even 4 3; run 0 1
run 0 3; run 2 3; even 4 0; even 4 1; run 0 2; run 1 1 = 4x2
run 0 3; run 2 3; even 4 0; run 0 2; run 2 1; run 0 2; even 4 1; run 0 3 = 4x2
run 2 3; run 0 3; even 7 0; run 2 3 = 7x1; even 7 0; run 0 3 = 7x1
run 2 3; loose 7 0; loose 7 1; run 2 3; loose 7 2; run 0 3; even 6 0; even 6 1; run 2 3 = 6x2
loose 4 0; loose 4 1; run 0 3; loose 4 2; run 2 3; even 5 0; run 0 3 = 5x1
loose 4 0; run 2 3; loose 5 1; loose 6 2; run 0 3; even 5 0; run 2 3 = 5x1
run 0 12; loose 4 0; loose 4 1; run 0 12; loose 4 2; run 0 12
run 0 3; run 2 1; fault; run 2 1; fault; run 2 1; even 3 0; run 0 1; fault; fault; run 0 2 = 3x1
run 0 3; run 2 2; fault; loose 3 0; run 2 1; fault; loose 3 1; run 2 2; fault; run 2 1; even 3 0; run 0 3 = 3x1
fault; run 0 3; fault; run 2 3; fault; even 8 0; fault; even 8 1; fault; run 0 3 = 8x2; fault
run 0 3; run 2 3; fault; fault; fault; even 2 0; run 0 1; fault; run 2 1; fault; run 0 1
run 0 3; run 2 3; even 5 0; run 0 2; fault; run 1 1 = 5x1
run 0 3; run 2 3; even 5 0; fault; even 5 1; fault; run 0 3 = 5x2
run 0 2; other; run 0 2; run 2 3; loose 3 0; run 0 3
run 0 3; run 2 2; other; run 2 1; loose 3 0; run 2 2; other; run 2 2; loose 3 1; run 2 3
run 0 3; run 2 3; even 5 0; run 0 2; other; run 0 1; even 5 1; run 0 3 = 5x2
run 0 3; run 2 3; other; even 5 0; other; even 5 1; other; run 0 3 = 5x2; other
run 0 3; other; run 2 3; other; other; even 1 0; run 0 2; fault; other; fault; run 0 2; even 1 1; run 0 3 = 1x2
run 0 1; other; run 0 1; other; run 0 1; other; run 2 3; loose 3 0; run 0 3; even 3 0; run 2 3 = 3x1
run 0 3; run 2 3; even 4 0; even 4 1; run 0 3 = 4x2; run 2 3; even 4 0; run 0 3 = 4x1
run 0 3; run 2 3; even 4 0; run 0 3 = 4x1; even 5 0; run 2 3 = 5x1; even 6 0; run 0 3 = 6x1; even 7 0
run 0 3; run 2 3; run 0 3; run 2 3; even 4 0; run 0 3 = 4x1
run 0 3; run 2 3; even 4 0; run 0 12 = 4x1; run 2 12; run 0 12; even 4 0; even 4 1; run 2 5 = 4x2
run 0 3; run 2 3; even 4 0; run 0 3 = 4x1; run 0 3; run 0 3; even 9 0; run 2 3 = 9x1
run 0 3; run 2 3; even 4 0; run 2 3; even 4 1; run 2 3; even 4 2; run 0 3 = 4x3
run 0 3; run 2 3; even 4 0; ragged 5 1; even 4 2; ragged 3 3; run 0 3 = 4x4
run 0 3; run 2 3; even 4 0; ragged 5 1; run 0 3 = 4x2; even 5 0; ragged 4 1; run 2 3 = 5x2
run 0 3; run 2 3; even 1280 0; even 1280 1; ragged 1279 2; even 1280 3; ragged 1 4; run 0 3 = 1280x5
loose 4 0; loose 5 1; run 0 3; loose 6 2; run 2 3; even 6 0; ragged 5 1; even 6 2; run 0 3 = 6x3
run 0 3; run 2 3; even 0 0; even 0 1; ragged 1 2; run 0 3 = 0x3
run 0 3; run 2 3; even 4294967295 0; even 4294967295 1; ragged 4294967294 2; run 0 3 = 4294967295x3
run 0 3; run 2 3; even 5 0; ragged 6 1; run 0 2; ragged 6 2; run 2 2; even 5 3; run 0 3 = 5x4
run 0 3; run 2 3; even 5 0; other; ragged 6 1; fault; even 5 2; run 0 3 = 5x3; even 6 0; even 6 1; ragged 5 2; run 2 3 = 6x3
run 1 3; run 3 3; even 4 0; run 1 3 = 4x1
run 60 2; run 0 1; run 62 2; run 2 1; even 4 0; run 61 1; run 60 1; run 4 1 = 4x1
run 1 3; run 0 3; run 5 3; loose 4 0; run 1 3; loose 4 1; run 9 3
run 255 3; run 253 3; even 4 0; run 2 3 = 4x1; even 4 0
run 127 3; run 128 3; even 2 0; run 2 3 = 2x1
run 3 1; run 2 1; run 3 1; run 1 1; run 0 1; run 1 1; even 4 0; run 2 3 = 4x1
run 0 4294967295; run 2 4294967295; even 9 0; run 0 4294967295 = 9x1
run 0 4294967295; run 0 4294967295; run 2 2; loose 9 0; run 2 2; loose 9 1; run 2 3; even 9 0; run 0 4294967295 = 9x1
run 2 100000; run 0 99999; even 640 0; even 640 1; even 640 2; run 0 2; run 2 1000000 = 640x3
run 0 44; run 2 88; even 6 0; run 2 4; even 6 1; run 2 4; even 6 2; run 2 4; run 0 44 = 6x3; run 2 44; even 6 0; run 2 4; even 6 1; run 2 4; run 0 3 = 6x2
run 2 44; loose 6 0; run 2 4; loose 6 1; run 0 44; even 6 0; run 0 4; even 6 1; run 0 4; even 6 2; run 2 44 = 6x3; even 7 0; run 2 4; even 7 1; run 0 44 = 7x2
run 2 4; fault; loose 3 0; run 0 2; run 0 3; run 3 4; even 3 0; run 1 4 = 3x1; run 2 1; fault; even 3 0
loose 3 0; other; loose 3 1; run 3 4; loose 3 2; loose 3 3; loose 4 4; loose 4 5; run 1 3; run 60 3; even 3 0; run 2 3 = 3x1
run 0 3; run 2 4; run 3 1; fault; run 2 1; run 2 1; fault; run 0 1; even 3 0; run 60 1; run 0 3 = 3x1; run 3 2
fault; other; other; run 60 4; loose 3 0; run 60 2; run 2 3; even 4 0; run 0 1; run 60 4 = 4x1; fault; run 2 4
run 2 3; run 1 2; run 60 1; run 0 2; run 1 2; run 0 1; run 0 4; run 60 4; even 3 0; run 60 4; run 2 3 = 3x1; even 3 0
run 0 3; run 3 3; run 60 3; even 3 0; even 3 1; run 2 1; run 2 2 = 3x2; even 3 0
run 60 3; loose 3 0; run 3 3; even 3 0; run 60 3 = 3x1; run 3 1; even 3 0; run 0 1; other; run 60 1
loose 3 0; run 60 3; run 0 4; run 2 4; run 0 3; run 2 3; even 3 0; run 3 1; run 1 4 = 3x1; even 4 0; fault; even 4 1
run 3 2; run 1 3; run 2 1; fault; loose 3 0; run 2 3; even 3 0; even 3 1; even 3 2; run 0 3 = 3x3; run 0 1; run 3 2
fault; loose 3 0; run 2 4; run 0 4; even 4 0; run 3 2; run 0 1; ragged 3 1; other; run 2 1; fault; run 2 3 = 4x2
run 3 1; run 0 3; run 3 3; other; even 4 0; run 1 1; run 0 1; run 1 2 = 4x1; fault; run 0 1; fault; run 0 3
run 0 1; run 1 2; run 1 4; loose 3 0; run 0 3; run 0 1; run 2 3; even 3 0; fault; run 0 4 = 3x1
run 2 1; run 0 3; run 2 3; run 1 2; even 4 0; run 2 3; even 4 1; ragged 3 2; run 1 4 = 4x3; run 0 1
run 0 3; run 2 2; run 0 0; run 2 1; even 4 0; run 0 2; run 0 0; even 4 1
run 2 0; run 0 3; run 2 3; even 4 0; run 0 0; run 0 2; run 2 0; run 0 1 = 4x1
run 0 3; run 2 3; even 5 0; run 0 0; run 0 2; even 5 1; run 0 0; run 0 3 = 5x2";
