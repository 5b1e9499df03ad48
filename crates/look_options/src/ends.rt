//! Options of a search of ends.

/// When a search over all schedules stops.
#[derive(Clone, Copy, Debug)]
pub struct Limits {
    /// It keeps no more states than this, if a number is named.
    pub states: Option<u32>,
    /// It stops after this number of seconds, if one is named.
    pub seconds: Option<u32>,
}

/// Which schedules are tried.
#[derive(Clone, Copy, Debug)]
pub enum Manner {
    /// All of them, up to these limits.
    All { limits: Limits },
    /// This many random ones. The same seed gives the same schedules.
    Sample { schedules: u32, seed: u32 },
    /// Those that show what each call can come to. The search keeps no more states than this, if a
    /// number is named.
    Calls { states: Option<u32> },
}

/// Which events may come besides steps, and which schedules are tried.
#[derive(Clone, Copy, Debug)]
pub struct EndsOptions {
    /// May scopes with a timeout expire?
    pub expiries: bool,
    /// How many interrupts may come from outside at most.
    pub interrupts: u32,
    pub manner: Manner,
}
