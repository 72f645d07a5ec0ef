//! Which clusters take the bytes of a chain.

ghost use Rattle.std.specs.Prelude.{◌≡◌, IfOk, IfSome};
ghost use Rattle.busdma_machine.specs.Machine.Spans.{span_bytes};
ghost use Rattle.busdma_rules.specs.Memory.Clusters.{plan};

use busdma_machine::{Mbuf, Span, SpanList, Va};
use load_mbuf::total;
use std::alloc::{AllocError, Global};

/// Returns the first bytes of the clusters, as many as the chain has, as spans in order, or `None` if the
/// clusters have too few bytes.
///
/// A cluster is the 4096 bytes from a virtual address on. After `m_defrag(9)`.
///
/// # Errors
///
/// `AllocError` if memory runs out.
pub fn plan(alloc: Global, chain: &[Mbuf], clusters: &[Va]) -> Result<Option<SpanList>, AllocError>
    ensures plan { IfOk result (λ spans. spans ≡ plan chain.now clusters.now) }
    ensures bytes { IfOk result (λ spans. IfSome spans (λ v. span_bytes v ≡ span_bytes chain.now)) }
{
    let mut left = total(chain);
    if left > 4096 * clusters.len() as u128 {
        return Ok(None);
    }
    let mut spans = Vec::new(alloc);
    for va in clusters {
        if left == 0 {
            break;
        }
        let len = left.min(4096);
        spans.push(Span {
            va: *va,
            len: len as u64,
        })?;
        left -= len;
    }
    Ok(Some(SpanList::new(spans)))
}
