//! Certificates that no search wrote: with covers, cuts, evidence and trees of their own. Who wrote the lines is not asked.

mod covers;
mod cuts;
mod evidence;
mod trees;
