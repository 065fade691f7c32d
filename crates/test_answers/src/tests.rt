mod exchange;
mod fixtures;
mod gates;
