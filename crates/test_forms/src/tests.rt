mod both;
mod bsd;
mod cells;
mod gnu;
mod pieces;
mod records;
