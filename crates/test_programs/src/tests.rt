mod demos;
mod images;
