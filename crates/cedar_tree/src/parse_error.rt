// SPDX-License-Identifier: Apache-2.0
ghost use Rattle.std.specs.Prelude.{◌≡◌, [], ◌∷◌, ◌++◌, None, Some, IfOk, OnOk, MatchOption, option_to_list};
ghost use Rattle.cedar_names.specs.of_text.Lists.{elements, elements_left};
ghost use Rattle.cedar_tree.specs.Faults.{user_span, user_second, user_spans, user_text, kind_text, primary_span, second_span, error_spans, all_spans, error_list, first_kind};

use cedar_names::{AnyId, BadEscape, Dup, Items, Mem, Node, NonEmpty, NonEmptyIter, Span, Text};
use std::alloc::Global;
use std::error::Error;
use std::fmt;

/// A rule that goes beyond the order of tokens, broken at the first token with which no schema goes on. It is told
/// instead of that stray token. `deduplicate_annotations` answers it, too. Spans are in bytes of the text.
#[derive(Debug, Drop, PartialEq, Eq)]
pub enum UserError {
    /// The list of an `enum` has to have an item: the place of the `]` that closes it empty.
    EmptyList(Span),
    /// A string literal has a bad escape: the place of the literal with its quotes, and the leftmost bad escape, whose
    /// offset counts in bytes from behind the opening quote.
    StringEscape(Span, BadEscape),
    /// A reserved word stands where an identifier has to: the word at its place.
    ReservedIdentifierUsed(Node<Text>),
    /// A key repeats one of its annotation list: the key, the place of the first that has this word, and the place of
    /// the repeat. Where a parser tells it, the places are of the words without `@`, the first before the second.
    DuplicateAnnotations(AnyId, Span, Span),
}

/// What is wrong with a text that is no schema. Offsets and spans are in bytes of the text.
#[derive(Debug, Drop, PartialEq, Eq)]
pub enum ParseErrorKind {
    /// No token begins here, and neither does a blank nor a comment.
    InvalidToken {
        /// The byte offset of the character at which none begins.
        location: usize,
    },
    /// The text ends, and a schema would go on.
    UnrecognizedEof {
        /// The length of the text in bytes.
        location: usize,
    },
    /// A schema goes on otherwise than by this token, and no rule of `User` is broken by it.
    UnrecognizedToken {
        /// The place of the token.
        span: Span,
        /// The token as it is written, a literal with its quotes.
        token: Text,
    },
    /// A token behind the end of a schema. The parser never answers it, since a schema may always go on; it is kept for
    /// those who match on it.
    ExtraToken {
        /// The place of the token.
        span: Span,
        /// The token as it is written, a literal with its quotes.
        token: Text,
    },
    /// A rule that goes beyond the order of tokens is broken, and this is told instead of the stray token.
    User(UserError),
    /// Types or brackets nest too deep.
    TooDeep {
        /// The place of the first bracket that is one too many, a single byte, or else of the first outermost type that
        /// nests too deep.
        span: Span,
    },
}

/// What is wrong with a text that is no schema, and the text.
#[derive(Debug, Drop, PartialEq, Eq)]
pub struct ParseError {
    /// What is wrong, and where.
    pub kind: ParseErrorKind,
    /// The whole text that was parsed.
    pub src: Text,
}

/// All that is wrong with a text: one error at least.
#[derive(Debug, Drop, PartialEq, Eq)]
pub struct ParseErrors {
    errors: NonEmpty<ParseError>,
}

impl UserError {
    /// The place to show: the earlier one where there are two.
    fn primary_span(&self) -> Span
        ensures { result ≡ user_span self.now }
    {
        match self {
            UserError::EmptyList(span) => *span,
            UserError::StringEscape(span, _) => *span,
            UserError::ReservedIdentifierUsed(word) => word.loc.span(),
            UserError::DuplicateAnnotations(_, first, _) => *first,
        }
    }

    /// The later place of a key that stands twice.
    fn second_span(&self) -> Option<Span>
        ensures { result ≡ user_second self.now }
    {
        match self {
            UserError::DuplicateAnnotations(_, _, second) => Some(*second),
            _ => None,
        }
    }

    /// What to do about the error: there is nothing to say.
    pub fn help(&self, _alloc: Global) -> Mem<Option<String>>
        ensures { IfOk result (λ help. help ≡ None) }
    {
        Ok(None)
    }

    /// The places of the error: the one to show, and for a key that stands twice the later one behind it. It fails only
    /// for want of memory.
    pub fn spans(&self, alloc: Global) -> Mem<Vec<Span>>
        ensures { IfOk result (λ spans. spans.items ≡ user_spans self.now) }
    {
        let mut spans = Vec::new(alloc);
        add_spans(&mut spans, self.primary_span(), self.second_span())?;
        Ok(spans)
    }
}

/// Adds the places of an error to `spans`: the one to show, and the later one behind it where there are two.
fn add_spans(spans: &mut Vec<Span>, primary: Span, second: Option<Span>) -> Mem<()>
    ensures { OnOk result (spans.new.items ≡ spans.old.items ++ primary ∷ option_to_list second) }
{
    spans.push(primary)?;
    if let Some(second) = second {
        spans.push(second)?;
    }
    Ok(())
}

impl ParseError {
    /// The place to show: an empty one where only an offset is known, and the earlier one where there are two.
    pub fn primary_source_span(&self) -> Span
        ensures { result ≡ primary_span self.now }
    {
        match &self.kind {
            ParseErrorKind::InvalidToken { location } => Span {
                start: *location,
                end: *location,
            },
            ParseErrorKind::UnrecognizedEof { location } => Span {
                start: *location,
                end: *location,
            },
            ParseErrorKind::UnrecognizedToken { span, .. } => *span,
            ParseErrorKind::ExtraToken { span, .. } => *span,
            ParseErrorKind::User(error) => error.primary_span(),
            ParseErrorKind::TooDeep { span } => *span,
        }
    }

    /// What to do about the error: there is nothing to say.
    pub fn help(&self, _alloc: Global) -> Mem<Option<String>>
        ensures { IfOk result (λ help. help ≡ None) }
    {
        Ok(None)
    }

    /// The places of the error: the one to show, and for a key that stands twice the later one behind it. It fails only
    /// for want of memory.
    pub fn spans(&self, alloc: Global) -> Mem<Vec<Span>>
        ensures { IfOk result (λ spans. spans.items ≡ error_spans self.now) }
    {
        let mut spans = Vec::new(alloc);
        self.add_spans(&mut spans)?;
        Ok(spans)
    }

    /// The later place of a key that stands twice.
    fn second_span(&self) -> Option<Span>
        ensures { result ≡ second_span self.now }
    {
        match &self.kind {
            ParseErrorKind::User(error) => error.second_span(),
            _ => None,
        }
    }

    /// Adds the places of the error to `spans`.
    fn add_spans(&self, spans: &mut Vec<Span>) -> Mem<()>
        ensures { OnOk result (spans.new.items ≡ spans.old.items ++ error_spans self.now) }
    {
        add_spans(spans, self.primary_source_span(), self.second_span())
    }
}

impl ParseErrors {
    /// The errors, from the first.
    pub fn new(first: ParseError, tail: Vec<ParseError>) -> ParseErrors
        ensures { error_list result ≡ first ∷ tail.items }
    {
        ParseErrors {
            errors: NonEmpty {
                head: first,
                tail: Items::from_vec(tail),
            },
        }
    }

    /// The errors of the list, unless it is empty.
    pub fn from_iter(v: Vec<ParseError>) -> Option<ParseErrors>
        ensures { MatchOption result (v.items ≡ []) (λ errors. error_list errors ≡ v.items) }
    {
        match NonEmpty::from_vec(v) {
            None => None,
            Some(errors) => Some(ParseErrors { errors }),
        }
    }

    /// The errors, in order.
    pub fn iter(&self) -> NonEmptyIter<'_, ParseError>
        ensures { elements_left result ≡ error_list self.now }
    {
        self.errors.iter()
    }

    /// The errors, in order.
    pub fn into_inner(self) -> NonEmpty<ParseError>
        ensures { elements result ≡ error_list self }
    {
        let ParseErrors { errors } = self;
        errors
    }

    /// What to do about the errors: there is nothing to say.
    pub fn help(&self, _alloc: Global) -> Mem<Option<String>>
        ensures { IfOk result (λ help. help ≡ None) }
    {
        Ok(None)
    }

    /// The places of all errors, in order. It fails only for want of memory.
    pub fn spans(&self, alloc: Global) -> Mem<Vec<Span>>
        ensures { IfOk result (λ spans. spans.items ≡ all_spans (error_list self.now)) }
    {
        let mut spans = Vec::new(alloc);
        for error in self.iter() {
            error.add_spans(&mut spans)?;
        }
        Ok(spans)
    }
}

impl fmt::Display for UserError {
    ghost output = { λ error. Some (user_text error) };

    fn fmt<W: fmt::Write>(&self, f: &mut fmt::Formatter<W>) -> fmt::Result {
        match self {
            UserError::EmptyList(_) => write!(f, "An empty list was passed"),
            UserError::StringEscape(_, _) => write!(f, "Invalid escape codes"),
            UserError::ReservedIdentifierUsed(word) => {
                let word = &word.node;
                write!(f, "`{word}` is a reserved identifier")
            }
            UserError::DuplicateAnnotations(key, _, _) => {
                write!(f, "duplicate annotations: `{key}`")
            }
        }
    }
}

impl Error for UserError {}

impl fmt::Display for ParseErrorKind {
    ghost output = { λ kind. Some (kind_text kind) };

    fn fmt<W: fmt::Write>(&self, f: &mut fmt::Formatter<W>) -> fmt::Result {
        match self {
            ParseErrorKind::InvalidToken { .. } => write!(f, "invalid token"),
            ParseErrorKind::UnrecognizedEof { .. } => write!(f, "unexpected end of input"),
            ParseErrorKind::UnrecognizedToken { token, .. } => {
                write!(f, "unexpected token `{token}`")
            }
            ParseErrorKind::ExtraToken { token, .. } => write!(f, "extra token `{token}`"),
            ParseErrorKind::User(error) => error.fmt(f),
            ParseErrorKind::TooDeep { .. } => write!(f, "type or bracket nesting is too deep"),
        }
    }
}

impl Error for ParseErrorKind {}

impl fmt::Display for ParseError {
    ghost output = { λ error. Some (kind_text error.kind) };

    fn fmt<W: fmt::Write>(&self, f: &mut fmt::Formatter<W>) -> fmt::Result {
        self.kind.fmt(f)
    }
}

impl Error for ParseError {}

impl fmt::Display for ParseErrors {
    ghost output = { λ errors. Some (kind_text (first_kind errors)) };

    fn fmt<W: fmt::Write>(&self, f: &mut fmt::Formatter<W>) -> fmt::Result {
        self.errors.head.fmt(f)
    }
}

impl Error for ParseErrors {}

impl Dup for UserError {
    fn dup(&self, alloc: Global) -> Mem<UserError> {
        match self {
            UserError::EmptyList(span) => Ok(UserError::EmptyList(*span)),
            UserError::StringEscape(span, escape) => Ok(UserError::StringEscape(*span, *escape)),
            UserError::ReservedIdentifierUsed(word) => {
                let word = word.dup(alloc)?;
                Ok(UserError::ReservedIdentifierUsed(word))
            }
            UserError::DuplicateAnnotations(key, first, second) => {
                let key = key.dup(alloc)?;
                Ok(UserError::DuplicateAnnotations(key, *first, *second))
            }
        }
    }
}

impl Dup for ParseErrorKind {
    fn dup(&self, alloc: Global) -> Mem<ParseErrorKind> {
        match self {
            ParseErrorKind::InvalidToken { location } => Ok(ParseErrorKind::InvalidToken {
                location: *location,
            }),
            ParseErrorKind::UnrecognizedEof { location } => Ok(ParseErrorKind::UnrecognizedEof {
                location: *location,
            }),
            ParseErrorKind::UnrecognizedToken { span, token } => {
                let token = token.dup(alloc)?;
                Ok(ParseErrorKind::UnrecognizedToken { span: *span, token })
            }
            ParseErrorKind::ExtraToken { span, token } => {
                let token = token.dup(alloc)?;
                Ok(ParseErrorKind::ExtraToken { span: *span, token })
            }
            ParseErrorKind::User(error) => {
                let error = error.dup(alloc)?;
                Ok(ParseErrorKind::User(error))
            }
            ParseErrorKind::TooDeep { span } => Ok(ParseErrorKind::TooDeep { span: *span }),
        }
    }
}

impl Dup for ParseError {
    fn dup(&self, alloc: Global) -> Mem<ParseError> {
        let kind = self.kind.dup(alloc)?;
        let src = self.src.dup(alloc)?;
        Ok(ParseError { kind, src })
    }
}

impl Dup for ParseErrors {
    fn dup(&self, alloc: Global) -> Mem<ParseErrors> {
        let errors = self.errors.dup(alloc)?;
        Ok(ParseErrors { errors })
    }
}
