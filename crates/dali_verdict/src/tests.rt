use crate::{judge, verdict_line};
use dali_base::{OutOfMemory, Text};
use std::alloc::Global;

/// Bytes, and the line that says the verdict on them.
const VERDICTS: [(&[u8], &[u8]); 6] = [
    (
        b"BLOCK,1\nBUDGET,2\nLINE,A,MXN,7\nLINE,B,MXN,0\nITEM,P1,4,0:-4,1:4\nITEM,P2,4,0:-4,1:4\nITEM,P3,4,0:-4,1:4\nSET,0\nPART,4,0,1,2\nBRANCH,0,0:4096\nBARRED,1,0\nBARRED,2,0\nBOUND\nBRANCH,1,0:4096\nBARRED,2,0\nBOUND\nSAFE,2\nBOUND\nLAST\n",
        b"VALID,OPTIMAL,4,1,4,2\n",
    ),
    (
        b"BLOCK,1\nBUDGET,0\nLINE,A,MXN,7\nLINE,B,MXN,0\nITEM,P1,4,0:-4,1:4\nITEM,P2,4,0:-4,1:4\nITEM,P3,4,0:-4,1:4\nSET,0\nPART,7,0,1,2\nBOUND,0:4096\nLAST\n",
        b"VALID,UNFINISHED,4,1,7,0\n",
    ),
    (
        b"BLOCK,1\nBUDGET,0\nLINE,A,MXN,7\nLINE,B,MXN,0\nITEM,P1,4,0:-4,1:4\nSET,0\nPART,3,0\nBOUND\nLAST\n",
        b"INVALID,UNPROVED,0\n",
    ),
    (
        b"BLOCK,1\nBUDGET,0\nLINE,A,MXN,7\nLINE,B,MXN,0\nITEM,P1,4,0:-4,1:4\nSET\nPART,4,0\nBOUND\nLAST\n",
        b"INVALID,ADDABLE\n",
    ),
    (
        b"BLOCK,1\nBUDGET,0\nITEM,P1,4\nSET\nLAST\n",
        b"INVALID,FORM,3\n",
    ),
    (b"", b"INVALID,FORM,1\n"),
];

fn said(alloc: Global, bytes: &[u8]) -> Result<Text, OutOfMemory> {
    let verdict = judge(alloc, bytes)?;
    verdict_line(alloc, &verdict)
}

#[test]
fn verdicts(rt: HostRuntime) {
    for (bytes, line) in VERDICTS {
        let text = said(rt.alloc(), bytes).expect(&rt, "memory");
        assert_eq!(rt; text.bytes(), line);
    }
}
