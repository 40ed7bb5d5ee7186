use crate::span::Span;
use mini_tx::TxId;

/// Places that an identifier locks.
#[derive(Clone, Copy, Debug, PartialEq, Eq)]
pub struct Lock {
    pub holder: TxId,
    pub span: Span,
}
