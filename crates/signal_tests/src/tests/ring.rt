//! The ring of samples: worked by hand, and read while another thread publishes.
mod published;
mod race;
mod worked;
