//! Whole runs of a map that is kept, over files whose calls fail, or whose bytes are changed or
//! lost. The files then have the map after some of the lines, at least those that were answered.

mod damage;
mod drill;
mod faults;
mod history;
mod runs;
