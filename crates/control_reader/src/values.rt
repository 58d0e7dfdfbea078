//! What single statements say.
use edt_text::Name;

/// What `LOCFILES` says.
#[derive(Drop)]
pub(crate) struct Files {
    pub(crate) obs_file: Name,
    pub(crate) time_root: Name,
    pub(crate) swap: bool,
}

/// What `LOCMETH` says: distances in millimetres, VpVs in millionths.
#[derive(Clone, Copy)]
pub(crate) struct Method {
    pub(crate) max_dist: i64,
    pub(crate) min_dist: i64,
    pub(crate) min_phases: i64,
    pub(crate) max_phases: i64,
    pub(crate) min_s: i64,
    pub(crate) vpvs: i64,
    pub(crate) reject_duplicates: bool,
}
