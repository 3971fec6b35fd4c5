ghost use Rattle.std.specs.Prelude.{◌≡◌, nat_eq, length};
ghost use Rattle.std.specs.List.{starts_with};
ghost use Rattle.std.specs.Cmp.Lexicographic.{pointwise};
ghost use Rattle.lua_token.specs.Spelling.{spelling};

use lua_value::Num;

/// What a token is (Lua 5.1 manual §2.1): a keyword, a symbol, or a name, a number or a string.
#[derive(Clone, Copy, Debug, PartialEq, Eq)]
pub enum Kind {
    /// `and`
    And,
    /// `break`
    Break,
    /// `do`
    Do,
    /// `else`
    Else,
    /// `elseif`
    ElseIf,
    /// `end`
    End,
    /// `false`
    False,
    /// `for`
    For,
    /// `function`
    Function,
    /// `if`
    If,
    /// `in`
    In,
    /// `local`
    Local,
    /// `nil`
    Nil,
    /// `not`
    Not,
    /// `or`
    Or,
    /// `repeat`
    Repeat,
    /// `return`
    Return,
    /// `then`
    Then,
    /// `true`
    True,
    /// `until`
    Until,
    /// `while`
    While,
    /// `+`
    Plus,
    /// `-`
    Minus,
    /// `*`
    Star,
    /// `/`
    Slash,
    /// `%`
    Percent,
    /// `^`
    Caret,
    /// `#`
    Hash,
    /// `==`
    Equal,
    /// `~=`
    NotEqual,
    /// `<=`
    LessEqual,
    /// `>=`
    GreaterEqual,
    /// `<`
    Less,
    /// `>`
    Greater,
    /// `=`
    Assign,
    /// `(`
    OpenParen,
    /// `)`
    CloseParen,
    /// `{`
    OpenBrace,
    /// `}`
    CloseBrace,
    /// `[`
    OpenBracket,
    /// `]`
    CloseBracket,
    /// `;`
    Semicolon,
    /// `:`
    Colon,
    /// `,`
    Comma,
    /// `.`
    Dot,
    /// `..`
    Concat,
    /// `...`
    Dots,
    /// A name that is no keyword.
    Name,
    /// A number, with its value.
    Number(Num),
    /// A string, quoted or in long brackets.
    Str,
}

impl Kind {
    /// The one spelling of a keyword or symbol; nothing for a name, a number or a string.
    #[tactic(auto, unfolding(crate::specs::Spelling::spelling))]
    pub fn spelling(self) -> &'static [u8]
        ensures { result.now ≡ spelling self }
    {
        match self {
            Kind::And => b"and",
            Kind::Break => b"break",
            Kind::Do => b"do",
            Kind::Else => b"else",
            Kind::ElseIf => b"elseif",
            Kind::End => b"end",
            Kind::False => b"false",
            Kind::For => b"for",
            Kind::Function => b"function",
            Kind::If => b"if",
            Kind::In => b"in",
            Kind::Local => b"local",
            Kind::Nil => b"nil",
            Kind::Not => b"not",
            Kind::Or => b"or",
            Kind::Repeat => b"repeat",
            Kind::Return => b"return",
            Kind::Then => b"then",
            Kind::True => b"true",
            Kind::Until => b"until",
            Kind::While => b"while",
            Kind::Plus => b"+",
            Kind::Minus => b"-",
            Kind::Star => b"*",
            Kind::Slash => b"/",
            Kind::Percent => b"%",
            Kind::Caret => b"^",
            Kind::Hash => b"#",
            Kind::Equal => b"==",
            Kind::NotEqual => b"~=",
            Kind::LessEqual => b"<=",
            Kind::GreaterEqual => b">=",
            Kind::Less => b"<",
            Kind::Greater => b">",
            Kind::Assign => b"=",
            Kind::OpenParen => b"(",
            Kind::CloseParen => b")",
            Kind::OpenBrace => b"{",
            Kind::CloseBrace => b"}",
            Kind::OpenBracket => b"[",
            Kind::CloseBracket => b"]",
            Kind::Semicolon => b";",
            Kind::Colon => b":",
            Kind::Comma => b",",
            Kind::Dot => b".",
            Kind::Concat => b"..",
            Kind::Dots => b"...",
            Kind::Name | Kind::Number(_) | Kind::Str => b"",
        }
    }

    // How many bytes its spelling has.
    pub(crate) fn spelled_length(&self) -> usize
        ensures { result ≡ length (spelling self.now) }
    {
        self.spelling().len()
    }

    // Whether the word is its spelling.
    pub(crate) fn is_spelled(self, word: &[u8]) -> bool
        ensures { result ≡ pointwise nat_eq (spelling self) word.now }
    {
        self.spelling() == word
    }

    // Whether its spelling stands at the front.
    pub(crate) fn begins(self, bytes: &[u8]) -> bool
        ensures { result ≡ starts_with nat_eq bytes.now (spelling self) }
    {
        bytes.starts_with(self.spelling())
    }
}
