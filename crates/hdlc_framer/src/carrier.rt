//! Whether another station is heard: flags show its carrier, an abort or a long stretch without a flag its end.

ghost use Rattle.std.specs.Prelude.{◌≡◌, ◌≤◌};
ghost use Rattle.hdlc_framer.specs.HeldCarrier.{new_carrier, bit_later, bits_later, flag_later, next_carrier, row_with};

use crate::event::Event;
use std::marker::Model;

// After so many bits without a flag a carrier is lost.
const MOST_QUIET: u16 = 10_000;

#[derive(Drop)]
pub struct Carrier {
    flags: u8,
    in_a_row: u8,
    since_flag: u16,
    held: bool,
}

impl Model for Carrier {
    ghost use Rattle.std.specs.Prelude.{◌≤◌};
    ghost use Rattle.hdlc_framer.specs.HeldCarrier.{HeldCarrier};

    ghost Value = { HeldCarrier };

    ghost view = { λ c. record { flags = c.flags; in_a_row = c.in_a_row; since_flag = c.since_flag; held = c.held } };

    ghost invariant = { λ c. (c.in_a_row ≤ 8) × (1 ≤ c.flags) × (c.flags ≤ 8) × (c.since_flag ≤ 10000) };
}

impl Carrier {
    // No bit has come. `flags` says how many flags in a row show a carrier.
    pub fn new(flags: u8) -> Self
        requires { (1 ≤ flags) × (flags ≤ 8) }
        ensures { result ≡ new_carrier flags }
    {
        Carrier {
            flags,
            in_a_row: 0,
            since_flag: MOST_QUIET,
            held: false,
        }
    }

    // As if no bit had come.
    pub fn reset(&mut self)
        ensures fresh { self.new ≡ new_carrier self.old.flags }
        ensures asked { 1 ≤ self.new.flags }
    {
        self.in_a_row = 0;
        self.since_flag = MOST_QUIET;
        self.held = false;
    }

    // Takes what the next bit ends.
    pub fn push(&mut self, event: Event)
        ensures { self.new ≡ next_carrier self.old event }
    {
        match event {
            Event::None => self.take_bit(),
            Event::Flag | Event::Frame => self.take_flag(),
            Event::Abort => {
                self.take_bit();
                self.held = false;
            }
        }
    }

    fn take_bit(&mut self)
        ensures { self.new ≡ bit_later self.old }
    {
        self.since_flag = (self.since_flag + 1).min(MOST_QUIET);
        if self.since_flag == MOST_QUIET {
            self.held = false;
        }
    }

    // Takes eight bits that end nothing.
    pub fn take_octet(&mut self)
        ensures { self.new ≡ bits_later 8 self.old }
    {
        self.since_flag = (self.since_flag + 8).min(MOST_QUIET);
        if self.since_flag == MOST_QUIET {
            self.held = false;
        }
    }

    fn take_flag(&mut self)
        ensures { self.new ≡ flag_later self.old }
    {
        self.in_a_row = self.row();
        self.since_flag = 0;
        if self.in_a_row == self.flags {
            self.held = true;
        }
    }

    // The flags in a row that end with a flag: it shares a 0 with the one before, or follows it at once, or is the
    // first.
    fn row(&self) -> u8
        ensures value { result ≡ row_with self.now }
        ensures most { result ≤ 8 }
    {
        if self.since_flag == 6 || self.since_flag == 7 {
            (self.in_a_row + 1).min(self.flags)
        } else {
            1
        }
    }

    pub fn is_held(&self) -> bool
        ensures { result ≡ self.now.held }
    {
        self.held
    }
}
