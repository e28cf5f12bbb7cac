// The books on examples: the cut to cents, the limit's edges, a full passbook, a layer on a layer, whole statements.
use crate::*;
use std::test::Fail;
use units::{ACCOUNTS, BALANCE_LIMIT, Money, Refusal};

// The number by which a call is answered, 0 where it is accepted.
fn number(answer: Result<(), Refusal>) -> u8 {
    match answer {
        Ok(()) => 0,
        Err(refusal) => refusal.number(),
    }
}

fn amount(answer: Result<Money, Refusal>) -> Result<i128, Fail> {
    match answer {
        Ok(money) => Ok(money.0),
        Err(_) => Err(Fail::new("refused")),
    }
}

// The account in a line of that number, 0 where there is none.
fn account_at(book: &Passbook, line: usize) -> u16 {
    match book.entry(line) {
        Ok(entry) => entry.account,
        Err(_) => 0,
    }
}

#[test]
fn cuts_balances_to_cents(rt: HostRuntime) -> Result<(), Fail> {
    let mut layer = CentLayer::over(TableBook::new());
    assert_eq!(rt; number(layer.post(1, Money(999))), 0);
    assert_eq!(rt; number(layer.post(2, Money(-999))), 0);
    assert_eq!(rt; number(layer.post(3, Money(1_000))), 0);
    assert_eq!(rt; number(layer.post(4, Money(-3_463_393))), 0);
    assert_eq!(rt; amount(layer.payable(1))?, 0);
    assert_eq!(rt; amount(layer.payable(2))?, 0);
    assert_eq!(rt; amount(layer.payable(3))?, 1);
    assert_eq!(rt; amount(layer.payable(4))?, -3_463);
    assert_eq!(rt; number(layer.post(1, Money(1))), 0);
    assert_eq!(rt; amount(layer.payable(1))?, 1);
    Ok(())
}

#[test]
fn holds_to_the_limit(rt: HostRuntime) -> Result<(), Fail> {
    let mut book = TableBook::new();
    assert_eq!(rt; number(book.post(96, Money(BALANCE_LIMIT))), 0);
    assert_eq!(rt; number(book.post(96, Money(1))), 15);
    assert_eq!(rt; number(book.post(96, Money(i128::MAX))), 15);
    assert_eq!(rt; number(book.post(96, Money(-2 * BALANCE_LIMIT))), 0);
    assert_eq!(rt; number(book.post(96, Money(-1))), 15);
    assert_eq!(rt; amount(book.balance(96))?, -BALANCE_LIMIT);
    assert_eq!(rt; number(book.post(0, Money(1))), 1);
    assert_eq!(rt; number(book.post(97, Money(1))), 1);
    Ok(())
}

#[test]
fn fills_a_passbook(rt: HostRuntime) -> Result<(), Fail> {
    let mut lines: [Option<Entry>; 3] = [None; 3];
    let mut book = Passbook::over(&mut lines);
    assert_eq!(rt; number(book.post(7, Money(5))), 0);
    assert_eq!(rt; number(book.post(8, Money(1))), 0);
    assert_eq!(rt; number(book.post(7, Money(-9))), 0);
    assert_eq!(rt; amount(book.balance(7))?, -4);
    assert_eq!(rt; book.places(), 0);
    assert_eq!(rt; number(book.post(7, Money(1))), 16);
    Ok(())
}

#[test]
fn stands_on_another_layer(rt: HostRuntime) -> Result<(), Fail> {
    let mut upper = CentLayer::over(CentLayer::over(TableBook::new()));
    assert_eq!(rt; number(upper.post(1, Money(-1_234_567))), 0);
    assert_eq!(rt; amount(upper.payable(1))?, -1_234);
    let lower = upper.into_below();
    assert_eq!(rt; amount(lower.payable(1))?, -1);
    Ok(())
}

// A statement is posted by rising account, and a zero is not posted.
#[test]
fn posts_by_rising_account(rt: HostRuntime) {
    let mut lines: [Option<Entry>; 4] = [None; 4];
    let mut book = Passbook::over(&mut lines);
    let mut amounts = [Money(0); ACCOUNTS];
    amounts[95] = Money(7);
    amounts[0] = Money(3);
    amounts[40] = Money(-5);
    assert_eq!(rt; number(post_statement(&mut book, &amounts)), 0);
    assert_eq!(rt; book.places(), 1);
    assert_eq!(rt; account_at(&book, 1), 1);
    assert_eq!(rt; account_at(&book, 2), 41);
    assert_eq!(rt; account_at(&book, 3), 96);
}

#[test]
fn posts_whole_statements(rt: HostRuntime) -> Result<(), Fail> {
    let mut lines: [Option<Entry>; 1] = [None; 1];
    let mut book = Passbook::over(&mut lines);
    let mut amounts = [Money(0); ACCOUNTS];
    amounts[0] = Money(3);
    amounts[1] = Money(-3);
    assert_eq!(rt; number(post_statement(&mut book, &amounts)), 16);
    amounts[1] = Money(0);
    assert_eq!(rt; number(post_statement(&mut book, &amounts)), 0);
    assert_eq!(rt; amount(book.balance(1))?, 3);
    amounts[0] = Money(BALANCE_LIMIT);
    assert_eq!(rt; number(post_statement(&mut book, &amounts)), 15);
    Ok(())
}
