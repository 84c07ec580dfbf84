// Times that are drawn at random.
ghost use Rattle.std.specs.Prelude.{◌≡◌, ◌≤◌};
ghost use Rattle.queue_model.specs.Chance.{after_draw, chance_of, fraction, halvings, log_of_one_more, ticks_drawn};

use rand_core::utils::NextWord;
use rand_pcg::Pcg32;

/// Draws times that are exponentially distributed: how long until the next of many events that know nothing of each other.
#[derive(Drop)]
pub struct Chance {
    pub words: Pcg32,
    /// The mean, in ticks.
    pub mean: u16,
}

// The logarithm of 1 + x to the base 2, where x and the result are in units of 1/65,536. It is off by less than 1/7,400.
fn log_of_one_more(x: u64) -> u64
    requires { x ≤ 65535 }
    ensures { result ≡ log_of_one_more x }
{
    let third = 21_348_u64.saturating_sub(x * 5_561 / 65_536);
    let second = 44_565_u64.saturating_sub(x * third / 65_536);
    let first = 94_308_u64.saturating_sub(x * second / 65_536);
    x * first / 65_536
}

// What comes after the first one of a word, in units of 1/65,536 of it, where so many zeros come before that.
fn fraction(word: u32, zeros: u32) -> u64
    ensures value { result ≡ fraction word zeros }
    ensures most { result ≤ 65535 }
{
    let rest = u64::from(word.wrapping_shl(zeros)) % 2_147_483_648;
    rest / 32_768
}

// How often 2 to the 32 is to be halved until it is the word, in units of 1/65,536.
fn halvings(word: u32) -> u64
    ensures value { result ≡ halvings word }
    ensures most { result ≤ 2162688 }
{
    let zeros = word.leading_zeros();
    let log = log_of_one_more(fraction(word, zeros));
    u64::from(zeros).min(32) * 65_536 + 65_536_u64.saturating_sub(log)
}

impl Chance {
    /// Times of which the mean is `mean` ticks, by the seed and the stream.
    pub fn new(seed: u64, stream: u64, mean: u16) -> Chance
        ensures { result ≡ chance_of seed stream mean }
    {
        Chance {
            words: Pcg32::new(seed, stream),
            mean,
        }
    }

    /// The next time, in whole ticks.
    pub fn draw(&mut self) -> u32
        ensures value { result ≡ ticks_drawn self.old }
        ensures after { self.new ≡ after_draw self.old }
    {
        let word = self.words.next_word();
        let ticks = halvings(word) * (u64::from(self.mean) * 45_426) / 4_294_967_296;
        ticks as u32
    }
}
