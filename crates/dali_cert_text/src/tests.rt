use crate::{BlockNo, print_block, read_block};
use dali_base::Text;
use std::alloc::Global;

const RING: &[u8] =
    b"BLOCK,1\nBUDGET,0\nLINE,A,MXN,0\nLINE,B,MXN,0\nLINE,C,MXN,0\nITEM,P1,100,0:-100,1:100\nITEM,P2,100,1:-100,2:100\nITEM,P3,100,0:100,2:-100\nSET,0,1,2\nPART,300,0,1,2\nBOUND\nLAST\n";

const SEARCHED: &[u8] =
    b"BLOCK,1\nBUDGET,2\nLINE,A,MXN,7\nLINE,B,MXN,0\nITEM,P1,4,0:-4,1:4\nITEM,P2,4,0:-4,1:4\nITEM,P3,4,0:-4,1:4\nSET,0\nPART,4,0,1,2\nBRANCH,0,0:4096\nBARRED,1,0\nBARRED,2,0\nBOUND\nBRANCH,1,0:4096\nBARRED,2,0\nBOUND\nSAFE,2\nBOUND\nLAST\n";

const CHAIN: &[u8] =
    b"BLOCK,1\nBUDGET,0\nLINE,R,MXN,0\nLINE,R,X,50\nLINE,S,MXN,0\nLINE,S,X,0\nLINE,T,MXN,510\nLINE,T,X,0\nITEM,D1,500,0:500,1:-50,2:-500,3:50\nITEM,D2,510,2:510,3:-50,4:-510,5:50\nSET,0,1\nPART,1010,0,1\nBOUND\nLAST\n";

const UNFINISHED: &[u8] =
    b"BLOCK,1\nBUDGET,0\nLINE,A,MXN,7\nLINE,B,MXN,0\nITEM,P1,4,0:-4,1:4\nITEM,P2,4,0:-4,1:4\nITEM,P3,4,0:-4,1:4\nSET,0\nPART,7,0,1,2\nBOUND,0:4096\nLAST\n";

/// A linked pair that changes no line, which needs edition 2.
const WIDE: &[u8] = b"BLOCK,2\nBUDGET,0\nITEM,P1,10\nSET,0\nPART,10,0\nBOUND\nLAST\n";

/// The block that was read, printed again.
fn again(alloc: Global, bytes: &[u8]) -> Result<Text, BlockNo> {
    let block = read_block(alloc, bytes)?;
    let printed = print_block(alloc, &block.problem, block.budget, &block.choice)?;
    Ok(printed)
}

#[test]
fn blocks_both_ways(rt: HostRuntime) {
    for bytes in [RING, SEARCHED, CHAIN, UNFINISHED, WIDE] {
        let printed = again(rt.alloc(), bytes).expect(&rt, "a block");
        assert_eq!(rt; printed.bytes(), bytes);
    }
}

/// Each isn't a block from the line that is given on.
const FORMS: [(&[u8], u64); 14] = [
    (b"", 1),
    (b"BLOCK,1", 1),
    (b"BLOCK,1\r\nBUDGET,0\nSET\nLAST\n", 1),
    (b"BLOCK,1\nBUDGET,00\nSET\nLAST\n", 2),
    (b"BLOCK,1\nBUDGET,4097\nSET\nLAST\n", 2),
    (b"BLOCK,1\nBUDGET,0\nLINE,B,X,0\nLINE,A,X,0\nSET\nLAST\n", 4),
    (
        b"BLOCK,1\nBUDGET,0\nLINE,A,X,0\nITEM,P,1,0:-0\nSET\nLAST\n",
        4,
    ),
    (b"BLOCK,1\nBUDGET,0\nITEM,P,1\nSET\nLAST\n", 3),
    (b"BLOCK,1\nBUDGET,0\nSET\nLAST", 4),
    (b"BLOCK,1\nBUDGET,0\nSET\n", 4),
    (b"BLOCK,1\nBUDGET,0\nSET\nLAST\nLAST\n", 5),
    (b"BLOCK,2\nBUDGET,0\nSET\nLAST\n", 4),
    (b"BLOCK,2\nBUDGET,0\nSET\nLAST\nX", 5),
    (b"BLOCK,1\nBUDGET,0\nSET\nPART,0\nBOUND\nLAST\n", 4),
];

#[test]
fn lines_of_form(rt: HostRuntime) {
    for (bytes, line) in FORMS {
        let no = read_block(rt.alloc(), bytes).err();
        assert_eq!(rt; no, Some(BlockNo::Form { line }));
    }
}

/// A block with a path of this many branches.
fn deep(alloc: Global, depth: u64) -> Result<Text, BlockNo> {
    let mut text = Text::new(alloc);
    text.add(
        b"BLOCK,1\nBUDGET,0\nLINE,A,MXN,1\nLINE,B,MXN,0\nITEM,P1,1,0:-1,1:1\nSET,0\nPART,1,0\n",
    )?;
    for _ in 0..depth {
        text.add(b"BRANCH,0\n")?;
    }
    for _ in 0..depth {
        text.add(b"BOUND\n")?;
    }
    text.add(b"BOUND\nLAST\n")?;
    Ok(text)
}

#[test]
fn deepest_tree(rt: HostRuntime) {
    let most = deep(rt.alloc(), 1024).expect(&rt, "memory");
    let printed = again(rt.alloc(), most.bytes()).expect(&rt, "a block");
    assert_eq!(rt; printed.bytes(), most.bytes());
    let past = deep(rt.alloc(), 1025).expect(&rt, "memory");
    assert_eq!(rt;
        read_block(rt.alloc(), past.bytes()).err(),
        Some(BlockNo::Form { line: 1032 })
    );
    let far = deep(rt.alloc(), 200_000).expect(&rt, "memory");
    assert_eq!(rt;
        read_block(rt.alloc(), far.bytes()).err(),
        Some(BlockNo::Form { line: 1032 })
    );
}
