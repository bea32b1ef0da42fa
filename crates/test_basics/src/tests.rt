mod columns;
mod fractions;
mod hosts;
mod lines;
mod numbers;
mod words;
