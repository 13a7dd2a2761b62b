//! What the options of `bench` ask for.
ghost use Rattle.std.specs.Prelude.{◌≡◌, option_map};
ghost use Rattle.tnc_bench.specs.Reported.{octets_sent, words_of};

use channel_access::CheckOctets as ChannelOctets;
use channel_bench::BenchWords;
use tnc_words::{BenchOptions, CheckOctets};

/// The words of the run that the options ask for.
pub fn bench_words(options: BenchOptions) -> BenchWords
    ensures { result ≡ words_of options }
{
    BenchWords {
        seed: options.seed,
        octets: options.octets,
        loss: options.loss,
        noise: options.noise,
        full: options.full,
        wide: options.wide,
        checks: checks_sent(options.checks),
    }
}

/// The check octets that both stations send, if any.
fn checks_sent(checks: Option<CheckOctets>) -> Option<ChannelOctets>
    ensures { result ≡ option_map octets_sent checks }
{
    match checks {
        Some(CheckOctets::Sixteen) => Some(ChannelOctets::Sixteen),
        Some(CheckOctets::ThirtyTwo) => Some(ChannelOctets::ThirtyTwo),
        Some(CheckOctets::SixtyFour) => Some(ChannelOctets::SixtyFour),
        None => None,
    }
}
