// Lines on examples.
use crate::call::Call;
use crate::line::said;
use std::test::Fail;

fn is_malformed(line: &[u8]) -> bool {
    said(line).is_err()
}

fn is_nothing(line: &[u8]) -> bool {
    matches!(said(line), Ok(None))
}

#[test]
fn nothing_is_said(rt: HostRuntime) {
    assert!(rt; is_nothing(b""));
    assert!(rt; is_nothing(b" \t\r"));
    assert!(rt; is_nothing(b"  # house,1,2,3"));
}

#[test]
fn malformed_lines(rt: HostRuntime) {
    assert!(rt; is_malformed(b"house"));
    assert!(rt; is_malformed(b"withdraw,1, 2"));
    assert!(rt; is_malformed(b"withdraw ,1,2"));
    assert!(rt; is_malformed(b"withdraw,1,2,"));
    assert!(rt; is_malformed(b"withdraw,1"));
    assert!(rt; is_malformed(b"house,1,2,3,4"));
}

#[test]
fn blanks_around_are_dropped(rt: HostRuntime) -> Result<(), Fail> {
    let Ok(Some(Call::Withdraw(call))) = said(b"\t withdraw,12,-48 \r") else {
        return Err(Fail::new("no withdrawal"));
    };
    assert_eq!(rt; call.day, 12);
    assert_eq!(rt; call.interval, -48);
    Ok(())
}

// A house line whose accounts 1 to 96 have the participants 96 down to 1.
const HOUSE: &[u8] =
    b"house,7,1,2,96,95,94,93,92,91,90,89,88,87,86,85,84,83,82,81,80,79,78,77,76,75,74,73,72,71,70,69,68,67,66,65,64,63,62,61,60,59,58,57,56,55,54,53,52,51,50,49,48,47,46,45,44,43,42,41,40,39,38,37,36,35,34,33,32,31,30,29,28,27,26,25,24,23,22,21,20,19,18,17,16,15,14,13,12,11,10,9,8,7,6,5,4,3,2,1";

#[test]
fn participants_of_a_house(rt: HostRuntime) -> Result<(), Fail> {
    let Ok(Some(Call::House(own))) = said(b"house,7,1,2") else {
        return Err(Fail::new("no house"));
    };
    assert_eq!(rt; own.participants[95], 96);
    let Ok(Some(Call::House(given))) = said(HOUSE) else {
        return Err(Fail::new("no house of 96"));
    };
    assert_eq!(rt; given.number, 7);
    assert_eq!(rt; given.participants[0], 96);
    assert_eq!(rt; given.participants[95], 1);
    Ok(())
}
