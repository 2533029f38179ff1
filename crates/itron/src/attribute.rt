// Attributes of the objects at which tasks wait, by their names in μITRON4.0 (request T-10).

// Tasks stand in the order in which they came.
pub const TA_TFIFO: u32 = 0;

// Tasks stand by priority.
pub const TA_TPRI: u32 = 1;
