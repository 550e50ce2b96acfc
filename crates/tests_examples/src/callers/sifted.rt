use buffer_redux::BufWriter;
use buffer_redux::tell::Told;
use codec::{ByHeader, PieceReader};
use decoders::{Lengths, Order, Width};
use forward::{Link, forward};
use piece_filter::Answering;
use std::test::Fail;
use uses::sifted::Sifted;

#[test]
fn passes_comments_on(rt: HostRuntime) -> Result<(), Fail> {
    let alloc = rt.alloc();
    let stream = Told::new(b"\x02#a\x01b\x01#\x00".as_slice());
    let lengths = Lengths {
        width: Width::One,
        order: Order::BigEndian,
        max: 100,
    };
    let source = PieceReader::new(alloc, stream, ByHeader(lengths))?;
    let target = BufWriter::new(alloc, Told::new(Vec::new(alloc)))?;
    let mut link = Link::new(Answering::new(source, target, Sifted));
    let went = forward(&mut link);
    assert!(rt; matches!(went, Ok(4)));
    drop(went);
    let filter = link.into_inner();
    assert!(rt; filter.target.get_ref().get_ref().as_slice() == b"#a\n#\n".as_slice());
    Ok(drop(filter))
}
