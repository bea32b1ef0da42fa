mod contents;
mod cuts;
mod fixtures;
mod graphs;
mod looks;
mod shares;
mod sums;
mod tables;
