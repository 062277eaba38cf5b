//! Worked rows through both keepings of bases.
mod building;
mod fitting;
mod rows;
