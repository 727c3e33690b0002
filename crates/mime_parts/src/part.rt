// A part of a message.
use crate::content::Content;
use head_fields::Span;
use sqlite_items::{Boxed, Items};

/// Where a part's header and body stand, how many lines the body has, and what it holds.
#[derive(Drop)]
#[cycle(part)]
pub struct Part {
    pub head: Span,
    pub body: Span,
    pub lines: u32,
    pub content: Content,
    pub inner: Inner,
}

/// What a part holds: nothing that is read, the parts of a multipart, or a message.
#[derive(Drop)]
#[cycle(part)]
pub enum Inner {
    Leaf,
    Parts(Items<Part>),
    Message(Boxed<Part>),
}
