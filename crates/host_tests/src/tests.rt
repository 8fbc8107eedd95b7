mod light;
mod rows;
mod stage;
