use crate::stage::{HEADER, day_of, device, site_of, text};
use dali_base::{OutOfMemory, Text};
use dali_desk::Status;
use dali_outside::MemSite;
use std::alloc::Global;

/// The deliveries that need each other, with their cycle.
pub(crate) const DELIVERY_CHAIN: &[u8] =
    b"080000,PART,R\n080000,PART,S\n080000,PART,T\n080000,INST,X,10\n\
080000,ISSUE,R,X,50\n080000,ISSUE,T,MXN,510\n\
090000,DVP,D1,R,S,X,50,500\n090000,DVP,D2,S,T,X,50,510\n100000,CYCLE,0\n\
100000,STAT,S\n100000,LEDGER,T\n";

pub(crate) const REPLIES: &[u8] = b"1,OK\n2,OK\n3,OK\n4,OK\n5,OK\n6,OK\n7,OK\n8,OK\n\
9,CYCLE,OPTIMAL,1010,2,1010,0\n9,POST,D1\n9,POST,D2\nBLOCK,1\nBUDGET,0\n\
LINE,R,MXN,0\nLINE,R,X,50\nLINE,S,MXN,0\nLINE,S,X,0\nLINE,T,MXN,510\nLINE,T,X,0\n\
ITEM,D1,500,0:500,1:-50,2:-500,3:50\nITEM,D2,510,2:510,3:-50,4:-510,5:50\n\
SET,0,1\nPART,1010,0,1\nBOUND\nLAST\n9,END\n\
10,BAL,MXN,10\n10,END\n\
11,ROW,2,6,MXN,510,510\n11,ROW,6,9,MXN,-510,0\n11,ROW,7,9,X,50,50\n11,END\n";

/// A day that has ended: how, what it printed, the calls of the site that it made, and the image that a stop then leaves where each
/// loose byte becomes some byte.
#[derive(Drop)]
pub(crate) struct DayOver {
    pub(crate) status: Status,
    pub(crate) printed: Text,
    pub(crate) calls: u64,
    pub(crate) image: Text,
}

pub(crate) fn ended(
    alloc: Global,
    status: Status,
    site: &MemSite,
    fill: u8,
) -> Result<DayOver, OutOfMemory> {
    Ok(DayOver {
        status,
        printed: text(alloc, site.printed())?,
        calls: site.made(),
        image: site.stop_image(alloc, fill)?,
    })
}

/// An empty journal with room for the day.
pub(crate) fn fresh(alloc: Global) -> Result<Text, OutOfMemory> {
    device(alloc, HEADER, 1024)
}

/// The day over an image, all of whose calls after so many fail.
pub(crate) fn fused(
    alloc: Global,
    image: Text,
    calls: u64,
    fill: u8,
) -> Result<DayOver, OutOfMemory> {
    let mut site = site_of(alloc, image, None)?;
    site.fuse(calls);
    let status = day_of(alloc, DELIVERY_CHAIN, &mut site)?;
    ended(alloc, status, &site, fill)
}

/// The day over an image, in which no call fails.
pub(crate) fn whole(alloc: Global, image: Text) -> Result<DayOver, OutOfMemory> {
    fused(alloc, image, u64::MAX, 0)
}

/// Whether the day over an image is done, and prints all replies.
pub(crate) fn goes_on(alloc: Global, image: Text) -> Result<bool, OutOfMemory> {
    let last = whole(alloc, image)?;
    Ok(last.status == Status::Done && last.printed.bytes() == REPLIES)
}
