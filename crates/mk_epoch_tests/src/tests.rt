//! Scripts of global lines, with the answer of each.
mod calling;
mod handing;
mod lines;
mod scripts;
