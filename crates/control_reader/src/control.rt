//! What a control file says.
use edt_text::Name;
use kernel_table::Shape;
use node_boxes::Frame;

/// A phase word that means a standard phase, after a statement `LOCPHASEID` of the NonLinLoc documentation.
#[derive(Drop)]
pub struct PhaseId {
    /// The standard phase.
    pub standard: Name,
    /// A phase word of picks that means it.
    pub code: Name,
}

/// A phase at a station whose picks aren't used, after a statement `LOCEXCLUDE` of the NonLinLoc documentation.
#[derive(Drop)]
pub struct Exclude {
    /// The station.
    pub station: Name,
    /// The phase.
    pub phase: Name,
}

/// A delay of a phase at a station, after a statement `LOCDELAY` of the NonLinLoc documentation.
#[derive(Drop)]
pub struct Delay {
    /// The station.
    pub station: Name,
    /// The phase.
    pub phase: Name,
    /// The delay in microseconds, at most 10^10 in size. It is taken from the observed time.
    pub delay: i64,
}

/// Another name of a station within dates, after a statement `LOCALIAS` of the NonLinLoc documentation.
#[derive(Drop)]
pub struct Alias {
    /// The station word of picks.
    pub station: Name,
    /// The name that takes its place.
    pub alias: Name,
    /// Year, month and day of the first day, any whole numbers.
    pub from: (i64, i64, i64),
    /// Year, month and day of the last day, any whole numbers.
    pub to: (i64, i64, i64),
}

/// A control file with its included files. The lists are in the order of their statements.
#[derive(Drop)]
pub struct Control {
    /// The name of the phase file.
    pub obs_file: Name,
    /// What the names of the time grids begin with.
    pub time_root: Name,
    /// The bodies of the time grids are big-endian.
    pub swap: bool,
    /// The search grid and where it lies.
    pub frame: Frame,
    /// The greatest distance of a used station from the middle of the search grid, in millimetres. 0 or less: any.
    pub max_dist: i64,
    /// The least such distance, in millimetres. 0 or less: any.
    pub min_dist: i64,
    /// The least number of used picks of an event that is located. Two are always needed.
    pub min_phases: i64,
    /// The greatest number of used picks of an event. 0 or less: any.
    pub max_phases: i64,
    /// The least number of used picks of the standard phase `S`.
    pub min_s: i64,
    /// The ratio of P velocity to S velocity in millionths, at most 10,000,000. Above 0 the S times come from the P grids.
    pub vpvs: i64,
    /// A second pick of a station and a standard phase in an event isn't used.
    pub reject_duplicates: bool,
    /// The error of the travel times, in microseconds, at most 10^8.
    pub sigma: u64,
    /// The initial cells of the search along x, y and z, each 1 to 4096.
    pub cells: (u32, u32, u32),
    /// The phase words with their standard phases, one for each code.
    pub phase_ids: Vec<PhaseId>,
    /// The phases that aren't used.
    pub excludes: Vec<Exclude>,
    /// The delays.
    pub delays: Vec<Delay>,
    /// The other names of stations.
    pub aliases: Vec<Alias>,
    /// The seed of random numbers, of which the lanes' schedule is made; 0 where none is given.
    pub seed: i64,
    /// The margin of the list of near-optimal nodes, in thousandths of the best score, 0 to 999.
    pub margin: u32,
    /// The greatest number of boxes that a search may meet, 1 to 4,000,000; twice the search nodes where none is given.
    pub budget: u32,
    /// The kernel, by default `Gauss`. The limit of `Count` is at most 10^9 microseconds.
    pub shape: Shape,
    /// How many lanes a search is divided over, 1 to 64; 1 where none is given.
    pub lanes: u32,
    /// How many lines have a keyword that isn't read.
    pub passed: u32,
}
