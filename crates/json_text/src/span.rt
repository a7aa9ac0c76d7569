ghost use Rattle.std.specs.Prelude.{◌≡◌};
ghost use Rattle.json_text.specs.SpanSeen.{text_seen};

use plan_base::Text;

/// A value whose texts are lent from the bytes that it was read from, and the place of its first byte.
#[derive(Drop)]
#[cycle(span)]
pub struct SpanTree<'a> {
    pub at: usize,
    pub node: SpanNode<'a>,
}

#[derive(Drop)]
#[cycle(span)]
pub enum SpanNode<'a> {
    Null,
    Flag(bool),
    /// `inf`, `-inf`, `nan` or `-nan`.
    Word,
    Number(&'a [u8]),
    Str(SpanText<'a>),
    List(Vec<SpanTree<'a>>),
    Object(Vec<SpanMember<'a>>),
    /// A value that is not kept.
    Skipped,
}

#[derive(Drop)]
#[cycle(span)]
pub struct SpanMember<'a> {
    pub key: SpanText<'a>,
    pub value: SpanTree<'a>,
}

/// A string: lent where it has no escape, and else made.
#[derive(Drop)]
pub enum SpanText<'a> {
    Lent(&'a [u8]),
    Made(Text),
}

impl<'a> SpanText<'a> {
    /// Its bytes.
    pub fn as_bytes(&self) -> &[u8]
        ensures { result.now ≡ text_seen self.now }
    {
        match self {
            SpanText::Lent(bytes) => bytes,
            SpanText::Made(text) => text.as_str().as_bytes(),
        }
    }
}
