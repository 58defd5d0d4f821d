mod answers;
mod in_world;
mod own_threads;
mod shown;
mod solving;
mod stepping;
mod stopped;
mod together;
