// What a send says besides (document 02, request 1): its checks, and how it joins the region that was sent.

#![tactic(auto)]

pub mod joining;

ghost use Rattle.std.specs.Prelude.{◌≡◌};
ghost use Rattle.send_options.specs.Options.{flags_answer, options_answer};

use answers::Answer;
pub use joining::apply_options;
use refusals::Refusal;
use rights::Rights;
use tables::Hash;

// No flag word, one without a hash, or one with a hash.
#[derive(Clone, Copy)]
pub enum SendOptions {
    None,
    Flags(Rights),
    Hashed(Rights, Hash),
}

// 18: a flag other than HASH, CLEANUP or VITAL (document 02, request 1), which are what a child may add to no rights;
// 19: HASH in the flag word, and no hash.
fn check_flags(flags: Rights, hashed: bool) -> Answer
    ensures { result ≡ flags_answer flags hashed }
{
    if Rights::NONE.allows(flags) {
        if hashed {
            return Ok(0);
        }
        if flags.contains(Rights::HASH) {
            return Err(Refusal::NoHash);
        }
        return Ok(0);
    }
    Err(Refusal::BadFlag)
}

pub fn check_options(o: SendOptions) -> Answer
    ensures { result ≡ options_answer o }
{
    match o {
        SendOptions::None => Ok(0),
        SendOptions::Flags(flags) => check_flags(flags, false),
        SendOptions::Hashed(flags, hash) => check_flags(flags, true),
    }
}
