// The C library: each function is one call of the library, told to C as a number and in the memory that it lends. include/cgx.h is its manual.
#![tactic(auto)]

mod reading;
mod writing;
