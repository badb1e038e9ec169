// What is written, against texts from outside.
use ikeless_tree::{
    Action, Command, Df, Direction, Entries, Limits, Rows, SaState, SadEntry, SadRow, Selector,
    SpdEntry, check_sad, check_spd,
};
use ikl_base::{Addr, ListOf, Name, NoMemory, Octets, Prefix};
use json_codec::{write_command, write_sad, write_sad_entry, write_spd, write_spd_entry};
use std::alloc::Global;
use std::process::Abort;
use std::test::Fail;

fn selector(alloc: Global) -> Selector {
    Selector {
        local: Prefix::of(Addr::V4([10, 1, 0, 0]), 16),
        remote: Prefix::of(Addr::V4([10, 2, 0, 0]), 16),
        proto: None,
        local_ports: ListOf::new(alloc),
        remote_ports: ListOf::new(alloc),
    }
}

fn bypass(alloc: Global) -> Result<SpdEntry, NoMemory> {
    Ok(SpdEntry {
        name: Name::from_slice(alloc, b"p1")?,
        direction: Direction::Out,
        reqid: 1,
        window: 64,
        selector: selector(alloc),
        action: Action::Bypass,
    })
}

fn list_text(alloc: Global, list: &Entries) -> Result<Octets, NoMemory> {
    match check_spd(list) {
        Ok(()) => write_spd(alloc, list),
        Err(_) => Octets::from_slice(alloc, b"refused"),
    }
}

fn entry_text(alloc: Global, list: &Entries) -> Result<Octets, NoMemory> {
    match check_spd(list) {
        Ok(()) => match list.as_slice() {
            [entry] => write_spd_entry(alloc, entry),
            _ => Octets::from_slice(alloc, b"not one"),
        },
        Err(_) => Octets::from_slice(alloc, b"refused"),
    }
}

const POLICIES_TEXT: &str =
    r#"{"ietf-i2nsf-ikeless:spd":{"spd-entry":[{"direction":"outbound","ipsec-policy-config":{"anti-replay-window-size":64,"processing-info":{"action":"bypass"},"traffic-selector":{"inner-protocol":"any","local-prefix":"10.1.0.0/16","remote-prefix":"10.2.0.0/16"}},"name":"p1","reqid":"1"}]}}"#;

#[test]
fn policies_are_written(rt: HostRuntime) -> Result<(), Fail> {
    let alloc = rt.alloc();
    let mut list = ListOf::new(alloc);
    list.push(bypass(alloc)?)?;
    let text = list_text(alloc, &list)?;
    assert!(rt; text.as_slice() == POLICIES_TEXT.as_bytes());
    Ok(())
}

const POLICY_TEXT: &str =
    r#"{"ietf-i2nsf-ikeless:spd-entry":[{"direction":"outbound","ipsec-policy-config":{"anti-replay-window-size":64,"processing-info":{"action":"bypass"},"traffic-selector":{"inner-protocol":"any","local-prefix":"10.1.0.0/16","remote-prefix":"10.2.0.0/16"}},"name":"p1","reqid":"1"}]}"#;

#[test]
fn one_policy_is_written(rt: HostRuntime) -> Result<(), Fail> {
    let alloc = rt.alloc();
    let mut list = ListOf::new(alloc);
    list.push(bypass(alloc)?)?;
    let text = entry_text(alloc, &list)?;
    assert!(rt; text.as_slice() == POLICY_TEXT.as_bytes());
    Ok(())
}

const HARD: Limits = Limits {
    time: 3600,
    bytes: 0,
    packets: 0,
    idle: 0,
};

const SOFT: Limits = Limits {
    time: 0,
    bytes: 7,
    packets: 0,
    idle: 0,
};

const COUNTS: Limits = Limits {
    time: 1,
    bytes: 2,
    packets: 0,
    idle: 4,
};

fn half(alloc: Global) -> Result<SadEntry, NoMemory> {
    Ok(SadEntry {
        name: Name::from_slice(alloc, b"in/1")?,
        reqid: 10,
        spi: 256,
        window: 64,
        selector: selector(alloc),
        key: Octets::from_slice(alloc, b"@abcdefghijklmnopqrs")?,
        local: Addr::V4([192, 0, 2, 1]),
        remote: Addr::V4([192, 0, 2, 2]),
        df: Df::Copy,
        hard: HARD,
        soft: SOFT,
    })
}

fn half_text(alloc: Global, half: &SadEntry) -> Result<Octets, NoMemory> {
    match check_sad(half) {
        Ok(()) => write_sad_entry(alloc, half),
        Err(_) => Octets::from_slice(alloc, b"refused"),
    }
}

const SAD_ENTRY_TEXT: &str =
    r#"{"ietf-i2nsf-ikeless:sad-entry":[{"ipsec-sa-config":{"anti-replay-window-size":64,"esp-sa":{"encryption":{"encryption-algorithm":20,"key":"40:61:62:63:64:65:66:67:68:69:6a:6b:6c:6d:6e:6f:70:71:72:73"}},"ext-seq-num":false,"mode":"tunnel","protocol-parameters":"esp","sa-lifetime-hard":{"time":3600},"sa-lifetime-soft":{"action":"replace","bytes":"7"},"seq-overflow":false,"spi":256,"traffic-selector":{"inner-protocol":"any","local-prefix":"10.1.0.0/16","remote-prefix":"10.2.0.0/16"},"tunnel":{"df-bit":"copy","local":"192.0.2.1","remote":"192.0.2.2"}},"name":"in/1","reqid":"10"}]}"#;

#[test]
fn one_sad_entry_is_written(rt: HostRuntime) -> Result<(), Fail> {
    let alloc = rt.alloc();
    let half = half(alloc)?;
    let text = half_text(alloc, &half)?;
    assert!(rt; text.as_slice() == SAD_ENTRY_TEXT.as_bytes());
    Ok(())
}

fn row_text(alloc: Global, entry: SadEntry) -> Result<Octets, NoMemory> {
    match check_sad(&entry) {
        Ok(()) => {
            let mut rows: Rows = ListOf::new(alloc);
            let state = SaState {
                current: COUNTS,
                top: 9,
            };
            rows.push(SadRow { entry, state })?;
            write_sad(alloc, &rows)
        }
        Err(_) => Octets::from_slice(alloc, b"refused"),
    }
}

const ROWS_TEXT: &str =
    r#"{"ietf-i2nsf-ikeless:sad":{"sad-entry":[{"ipsec-sa-config":{"anti-replay-window-size":64,"esp-sa":{"encryption":{"encryption-algorithm":20}},"ext-seq-num":false,"mode":"tunnel","protocol-parameters":"esp","sa-lifetime-hard":{"time":3600},"sa-lifetime-soft":{"action":"replace","bytes":"7"},"seq-overflow":false,"spi":256,"traffic-selector":{"inner-protocol":"any","local-prefix":"10.1.0.0/16","remote-prefix":"10.2.0.0/16"},"tunnel":{"df-bit":"copy","local":"192.0.2.1","remote":"192.0.2.2"}},"ipsec-sa-state":{"replay-stats":{"last-sequence":"9"},"sa-lifetime-current":{"bytes":"2","idle":4,"packets":0,"time":1}},"name":"in/1","reqid":"10"}]}}"#;

#[test]
fn rows_are_written_without_keys(rt: HostRuntime) -> Result<(), Fail> {
    let alloc = rt.alloc();
    let text = row_text(alloc, half(alloc)?)?;
    assert!(rt; text.as_slice() == ROWS_TEXT.as_bytes());
    Ok(())
}

const END_TEXT: &str = r#"{"ikl-control:input":{"reqid":"10"}}"#;

#[test]
fn commands_are_written(rt: HostRuntime) -> Result<(), Fail> {
    let alloc = rt.alloc();
    let text = write_command(alloc, &Command::End(10))?;
    assert!(rt; text.as_slice() == END_TEXT.as_bytes());
    Ok(())
}
