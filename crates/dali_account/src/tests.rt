use crate::{Book, BookNo, Move, Net, Pair, Pairs, cash_name};
use dali_base::{Name, Text, read_name};
use std::alloc::Global;
use std::test::Fail;

/// 10^15 units, a thousandth of the most that an asset has.
const THOUSANDTH: u64 = 1_000_000_000_000_000;

fn name(bytes: &[u8]) -> Result<Name, Fail> {
    Ok(read_name(bytes).ok_or("no name")?)
}

fn bank() -> Name {
    read_name(b"BANK".as_slice()).unwrap()
}

fn numbered(alloc: Global, letter: u8, n: u64) -> Result<Name, Fail> {
    let mut text = Text::new(alloc);
    text.push(letter)?;
    text.add_number(n)?;
    name(text.bytes())
}

fn issue_times(book: &mut Book, account: Name, asset: Name, times: u32) -> Result<(), BookNo> {
    for _ in 0..times {
        book.issue(account, asset, THOUSANDTH)?;
    }
    Ok(())
}

fn add_accounts(alloc: Global, book: &mut Book, count: u64) -> Result<(), Fail> {
    for n in 0..count {
        book.add_account(numbered(alloc, b'A', n)?)?;
    }
    Ok(())
}

fn add_codes(alloc: Global, book: &mut Book, count: u64) -> Result<(), Fail> {
    for n in 0..count {
        book.add_asset(numbered(alloc, b'C', n)?, 1)?;
    }
    Ok(())
}

#[test]
fn total_limit(rt: HostRuntime) -> Result<(), Fail> {
    let mut book = Book::new(rt.alloc());
    add_accounts(rt.alloc(), &mut book, 1)?;
    let bank = name(b"A0".as_slice())?;
    let cash = cash_name();
    issue_times(&mut book, bank, cash, 1000)?;
    assert_eq!(rt; book.total(cash), 1_000_000_000_000_000_000);
    assert_eq!(rt; issue_times(&mut book, bank, cash, 1), Err(BookNo::Total));
    Ok(())
}

#[test]
fn full_accounts(rt: HostRuntime) -> Result<(), Fail> {
    let mut book = Book::new(rt.alloc());
    add_accounts(rt.alloc(), &mut book, 1000)?;
    assert_eq!(rt;
        book.add_account(name(b"MORE".as_slice())?),
        Err(BookNo::Full)
    );
    assert_eq!(rt; book.accounts(), 1000);
    Ok(())
}

#[test]
fn full_codes(rt: HostRuntime) -> Result<(), Fail> {
    let mut book = Book::new(rt.alloc());
    add_codes(rt.alloc(), &mut book, 1000)?;
    assert_eq!(rt;
        book.add_asset(name(b"MORE".as_slice())?, 1),
        Err(BookNo::Full)
    );
    assert_eq!(rt; book.assets(), 1000);
    Ok(())
}

/// A book in which BANK has these centavos.
fn book_with(alloc: Global, centavos: u64) -> Result<Book, Fail> {
    let bank = bank();
    let mut book = Book::new(alloc);
    book.add_account(bank)?;
    book.issue(bank, cash_name(), centavos)?;
    Ok(book)
}

/// Adds a code, and issues these units of it to BANK.
fn issue_code(book: &mut Book, code: &[u8], units: u64) -> Result<(), Fail> {
    let code = name(code)?;
    book.add_asset(code, 1)?;
    book.issue(bank(), code, units)?;
    Ok(())
}

/// The pairs of 3 GOLD and 700 centavos.
fn gold_and_cash(alloc: Global) -> Result<Pairs, Fail> {
    let mut pairs = Pairs::new(alloc);
    let gold = name(b"GOLD".as_slice())?;
    pairs.push(Pair {
        asset: gold,
        balance: 3,
    })?;
    let cash = cash_name();
    pairs.push(Pair {
        asset: cash,
        balance: 700,
    })?;
    Ok(pairs)
}

#[test]
fn earmark_takes_from_the_balance(rt: HostRuntime) -> Result<(), Fail> {
    let mut book = book_with(rt.alloc(), 700)?;
    let bank = bank();
    let cash = cash_name();
    assert_eq!(rt; book.earmark(bank, cash, 200), Ok(()));
    assert_eq!(rt; book.earmarked(bank, cash), 200);
    Ok(())
}

#[test]
fn release_gives_back(rt: HostRuntime) -> Result<(), Fail> {
    let mut book = book_with(rt.alloc(), 700)?;
    let bank = bank();
    let cash = cash_name();
    book.earmark(bank, cash, 200)?;
    assert_eq!(rt; book.release(bank, cash, 50), Ok(()));
    assert_eq!(rt; book.balance(bank, cash), 550);
    Ok(())
}

#[test]
fn room_is_there(rt: HostRuntime) -> Result<(), Fail> {
    let mut book = Book::new(rt.alloc());
    assert_eq!(rt; book.reserve(4), Ok(()));
    Ok(())
}

#[test]
fn names_are_readied(rt: HostRuntime) -> Result<(), Fail> {
    let mut book = Book::new(rt.alloc());
    let bank = bank();
    assert_eq!(rt; book.ready_account(bank), Ok(()));
    assert_eq!(rt; book.ready_asset(bank), Ok(()));
    Ok(())
}

#[test]
fn net_takes_a_move(rt: HostRuntime) -> Result<(), Fail> {
    let account = bank();
    let mut net = Net::new(rt.alloc());
    let item = Move {
        account,
        asset: account,
        delta: -5,
    };
    assert_eq!(rt; net.push(item), Ok(()));
    assert_eq!(rt; net.len(), 1);
    Ok(())
}

#[test]
fn pairs_stand_in_byte_order(rt: HostRuntime) -> Result<(), Fail> {
    let mut book = book_with(rt.alloc(), 700)?;
    issue_code(&mut book, b"GOLD".as_slice(), 3)?;
    let pairs = book.pairs(rt.alloc(), bank())?;
    assert_eq!(rt; pairs, gold_and_cash(rt.alloc())?);
    Ok(())
}

#[test]
fn a_drawn_balance_is_no_pair(rt: HostRuntime) -> Result<(), Fail> {
    let mut book = book_with(rt.alloc(), 700)?;
    let bank = bank();
    book.draw(bank, cash_name(), 700)?;
    assert_eq!(rt; book.pairs(rt.alloc(), bank)?, Pairs::new(rt.alloc()));
    Ok(())
}
