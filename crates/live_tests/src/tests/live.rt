//! The live side, part by part and as a whole, over sockets in memory and on loopback.

mod health;
mod held_input;
mod host_side;
mod keyed;
mod offering;
mod outcome;
mod premises;
mod pumping;
mod real_ports;
mod script;
mod serving;
mod spawner;
mod two_stations;
