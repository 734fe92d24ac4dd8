// The numbers of the reader's answers, as a script's answer lines begin with them, and what stands beside them.
ghost use Rattle.std.specs.Prelude.{◌≡◌, MatchResult};
ghost use Rattle.reader.specs.Answer.{judged_number, judged_header, stepped_number, rewritten_number, rewritten_length};

use crate::copy::RewriteError;
use crate::place::Stepped;
use codec::header::Header;
use codec::refusal::Refusal;
use codec::time::Time;

// 0 where it is done, else the number of what stands against it.
pub fn number<T: Copy, E: Copy + Into<u8>>(answer: Result<T, E>) -> u8
    ensures { MatchResult answer (λ done. result ≡ 0) (λ why. E.converts why result) }
{
    match answer {
        Ok(_) => 0,
        Err(why) => why.into(),
    }
}

pub fn judged_number(judged: Result<Header, Refusal>) -> u8
    ensures { result ≡ judged_number judged }
{
    number(judged)
}

const NO_HEADER: Header = Header {
    sequence: 0,
    time: Time { sec: 0, nano: 0 },
    length: 0,
};

// The header of an accepted frame; all zero beside a refusal.
pub fn judged_header(judged: Result<Header, Refusal>) -> Header
    ensures { result ≡ judged_header judged }
{
    judged.unwrap_or(NO_HEADER)
}

pub fn stepped_number(stepped: Result<Option<Stepped>, Refusal>) -> u8
    ensures { result ≡ stepped_number stepped }
{
    number(stepped)
}

pub fn rewritten_number(rewritten: Result<usize, RewriteError>) -> u8
    ensures { result ≡ rewritten_number rewritten }
{
    number(rewritten)
}

// How many bytes a rewrite laid out; 0 beside a refusal.
pub fn rewritten_length(rewritten: Result<usize, RewriteError>) -> usize
    ensures { result ≡ rewritten_length rewritten }
{
    rewritten.unwrap_or(0)
}
