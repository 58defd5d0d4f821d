mod filled;
mod seats;
mod threads;
