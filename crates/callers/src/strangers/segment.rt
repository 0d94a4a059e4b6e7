// Transducers over segments and vectors.
use flow_edges::Kind;
use flow_scalar::{Transducer, Want};
use flow_segment::{
    AppendFlags, ConcatFlags, Dist, FlagOfBool, Index, Interleave, InterleaveGroups, Pack,
    PackGroups, PartFlags, Print, SameFlags, Seq, Tab, TheCheck, workers,
};
use snesl_values::Ty;
use std::alloc::{AllocError, Global};

/// What transducers over flags want.
pub fn flags() -> [Want; 7] {
    [
        FlagOfBool::new(workers::FlagOfBool::new(), 0).want(),
        SameFlags::new(workers::SameFlags::new(), 0).want(),
        ConcatFlags::new(workers::ConcatFlags::new(), 0).want(),
        PartFlags::new(workers::PartFlags::new(), 0).want(),
        TheCheck::new(workers::TheCheck::new(), 0).want(),
        AppendFlags::new(workers::AppendFlags::new(), 0).want(),
        InterleaveGroups::new(workers::InterleaveGroups::new(), 0).want(),
    ]
}

/// What transducers want that move items of segments.
pub fn items() -> [Want; 4] {
    [
        Dist::new(workers::Dist::new(Kind::Int), 0).want(),
        Pack::new(workers::Pack::new(Kind::Int), 0).want(),
        PackGroups::new(workers::PackGroups::new(), 0).want(),
        Interleave::new(workers::Interleave::new(Kind::Int), 0).want(),
    ]
}

/// What transducers over vectors want.
pub fn vectors(alloc: Global) -> Result<[Want; 3], AllocError> {
    let tab = Tab::new(workers::Tab::new(alloc, Ty::Int)?, 0);
    let seq = Seq::new(workers::Seq::new(alloc, Ty::Int)?, 0);
    let index = Index::new(workers::Index::new(alloc, Ty::Int)?, 0);
    Ok([tab.want(), seq.want(), index.want()])
}

/// The text that a `Print` has gathered.
pub fn text_of(print: &Print) -> &[u8] {
    print.text()
}
