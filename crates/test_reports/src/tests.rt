mod exact;
mod flat;
mod flows;
mod graph;
mod listings;
mod printed;
