//! The commands, each by its name.
pub(crate) mod check;
pub(crate) mod damage;
pub(crate) mod make_content;
pub(crate) mod make_dvi;
pub(crate) mod make_link;
pub(crate) mod read_biphase;
pub(crate) mod recover_biphase;
pub(crate) mod recover_content;
pub(crate) mod recover_content_relock;
pub(crate) mod recover_dvi;
pub(crate) mod recover_link;
pub(crate) mod recover_relock;
pub(crate) mod recover_track;
pub(crate) mod relay_capture;
pub(crate) mod sample;
pub(crate) mod slip;
