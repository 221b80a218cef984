// The limits of document 01, "Records"; specs/Limits.antt has the same for the promises.

// A label is 1 to so many.
pub const LABEL_MOST: usize = 999;

// A rule has 1 to so many bytes and 1 to so many entries.
pub const RULE_MOST: usize = 512;

pub const ENTRIES_MOST: usize = 64;

// A report has 1 to so many bytes, 1 to so many elements, and so many levels, counted from 0.
pub const REPORT_MOST: usize = 40960;

pub const ELEMENTS_MOST: usize = 4096;

pub const LEVELS_MOST: usize = 64;
