ghost use Rattle.std.specs.Prelude.{◌≡◌, find, nat_eq};
ghost use Rattle.std.specs.List.{starts_with};
ghost use Rattle.std.specs.Cmp.Lexicographic.{pointwise};
ghost use Rattle.lua_token.specs.Spelling.{keyword_of, spelling, symbol_at, word_kind};

use crate::Kind;

// The first of the kinds that is spelled so.
fn spelled_so(kinds: &[Kind], word: &[u8]) -> Option<Kind>
    ensures { result ≡ find (λ k. pointwise nat_eq (spelling k) word.now) kinds.now }
{
    kinds.iter().copied().find(|kind| kind.is_spelled(word))
}

// The first of the kinds whose spelling stands at the front.
fn spelled_at(kinds: &[Kind], bytes: &[u8]) -> Option<Kind>
    ensures { result ≡ find (λ k. starts_with nat_eq bytes.now (spelling k)) kinds.now }
{
    kinds.iter().copied().find(|kind| kind.begins(bytes))
}

// The keyword that is spelled so, among those that begin with its letter.
#[tactic(auto, unfolding(crate::specs::Spelling::keyword_of, crate::specs::Spelling::spelling))]
fn keyword_of(word: &[u8]) -> Option<Kind>
    ensures { result ≡ keyword_of word.now }
{
    match word {
        [b'a', ..] => spelled_so(&[Kind::And], word),
        [b'b', ..] => spelled_so(&[Kind::Break], word),
        [b'd', ..] => spelled_so(&[Kind::Do], word),
        [b'e', ..] => spelled_so(&[Kind::Else, Kind::ElseIf, Kind::End], word),
        [b'f', ..] => spelled_so(&[Kind::False, Kind::For, Kind::Function], word),
        [b'i', ..] => spelled_so(&[Kind::If, Kind::In], word),
        [b'l', ..] => spelled_so(&[Kind::Local], word),
        [b'n', ..] => spelled_so(&[Kind::Nil, Kind::Not], word),
        [b'o', ..] => spelled_so(&[Kind::Or], word),
        [b'r', ..] => spelled_so(&[Kind::Repeat, Kind::Return], word),
        [b't', ..] => spelled_so(&[Kind::Then, Kind::True], word),
        [b'u', ..] => spelled_so(&[Kind::Until], word),
        [b'w', ..] => spelled_so(&[Kind::While], word),
        _ => None,
    }
}

// The kind of a word.
pub(crate) fn word_kind(word: &[u8]) -> Kind
    ensures { result ≡ word_kind word.now }
{
    keyword_of(word).unwrap_or(Kind::Name)
}

// The longest symbol at the front, among those that begin with its byte, longer ones first.
#[tactic(auto, unfolding(crate::specs::Spelling::symbol_at, crate::specs::Spelling::spelling))]
pub(crate) fn symbol_at(bytes: &[u8]) -> Option<Kind>
    ensures { result ≡ symbol_at bytes.now }
{
    match bytes {
        [b'#', ..] => spelled_at(&[Kind::Hash], bytes),
        [b'%', ..] => spelled_at(&[Kind::Percent], bytes),
        [b'(', ..] => spelled_at(&[Kind::OpenParen], bytes),
        [b')', ..] => spelled_at(&[Kind::CloseParen], bytes),
        [b'*', ..] => spelled_at(&[Kind::Star], bytes),
        [b'+', ..] => spelled_at(&[Kind::Plus], bytes),
        [b',', ..] => spelled_at(&[Kind::Comma], bytes),
        [b'-', ..] => spelled_at(&[Kind::Minus], bytes),
        [b'.', ..] => spelled_at(&[Kind::Dots, Kind::Concat, Kind::Dot], bytes),
        [b'/', ..] => spelled_at(&[Kind::Slash], bytes),
        [b':', ..] => spelled_at(&[Kind::Colon], bytes),
        [b';', ..] => spelled_at(&[Kind::Semicolon], bytes),
        [b'<', ..] => spelled_at(&[Kind::LessEqual, Kind::Less], bytes),
        [b'=', ..] => spelled_at(&[Kind::Equal, Kind::Assign], bytes),
        [b'>', ..] => spelled_at(&[Kind::GreaterEqual, Kind::Greater], bytes),
        [b'[', ..] => spelled_at(&[Kind::OpenBracket], bytes),
        [b']', ..] => spelled_at(&[Kind::CloseBracket], bytes),
        [b'^', ..] => spelled_at(&[Kind::Caret], bytes),
        [b'{', ..] => spelled_at(&[Kind::OpenBrace], bytes),
        [b'}', ..] => spelled_at(&[Kind::CloseBrace], bytes),
        [b'~', ..] => spelled_at(&[Kind::NotEqual], bytes),
        _ => None,
    }
}
