// What bodies are read as, and what is wrong with those that are refused.
use ikl_base::{Name, NoMemory, Octets, OrMemory};
use json_codec::{CodecFault, read_command, read_sad_entry, read_spd, read_spd_entry};
use std::alloc::Global;
use std::process::Abort;
use std::test::Fail;

const POLICIES: &str =
    r#"{"ietf-i2nsf-ikeless:spd":{"spd-entry":[{"name":"p1","direction":"outbound","reqid":"1","ipsec-policy-config":{"anti-replay-window-size":64,"traffic-selector":{"inner-protocol":17,"local-ports":[{"start":1,"end":2}],"local-prefix":"10.1.0.0/16","remote-ports":[{"start":3,"end":4}],"remote-prefix":"10.2.0.0/16"},"processing-info":{"action":"bypass","ipsec-sa-cfg":{"ext-seq-num":false,"mode":"tunnel","pfp-flag":false,"protocol-parameters":"esp","seq-overflow":false,"stateful-frag-check":false}}}}]}}"#;

const POLICY: &str =
    r#" { "ietf-i2nsf-ikeless:spd-entry" : [ { "reqid" : "1", "name" : "p1", "ipsec-policy-config" : { "traffic-selector" : { "remote-prefix" : "10.2.0.0/16", "local-prefix" : "10.1.9.9/16" }, "processing-info" : { "action" : "bypass" } }, "direction" : "outbound" } ] } "#;

const SAD_ENTRY: &str =
    r#"{"ietf-i2nsf-ikeless:sad-entry":[{"name":"in/1","reqid":"10","ipsec-sa-config":{"spi":256,"ext-seq-num":false,"seq-overflow":false,"anti-replay-window-size":64,"traffic-selector":{"local-prefix":"10.1.0.0/16","remote-prefix":"10.2.0.0/16"},"protocol-parameters":"esp","mode":"tunnel","esp-sa":{"encryption":{"encryption-algorithm":20,"key":"00:01:02:03:04:05:06:07:08:09:0a:0b:0c:0d:0e:0f:10:11:12:13"}},"sa-lifetime-hard":{"time":3600,"packets":5,"idle":6,"bytes":"7"},"sa-lifetime-soft":{"time":600,"action":"replace"},"tunnel":{"local":"192.0.2.1","remote":"192.0.2.2","df-bit":"copy"}}}]}"#;

const LIST: &str = r#"{"ikl-control:input":{"gateway":"a","spd-entry":[]}}"#;

const TUNNEL: &str =
    r#"{"ikl-control:input":{"reqid":"10","mode":"now","first":"a","second":"b","first-prefix":"10.1.0.0/16","second-prefix":"10.2.0.0/16","anti-replay-window-size":64,"hard":{"time":1},"soft":{"bytes":"2"}}}"#;

// Which call, what is taken out of its body, what is put there (a whole body where nothing is taken out), and the
// answer.
const ANSWERS: &str = r#"p|p1|p1|ok
p|||malformed-message json -
p||{|malformed-message json -
p||{"a":1e999}|malformed-message json -
p||{} {}|malformed-message json -
p||7|invalid-value form []
p||null|invalid-value form []
p||[]|invalid-value form []
p||{}|bad-element missing []
p||{"spd":{}}|unknown-element unknown []
p||{"ietf-i2nsf-ikeless:spd":{"spd-entry":[]},"a":1}|unknown-element unknown []
p||{"ietf-i2nsf-ikeless:spd":7}|invalid-value form [/ietf-i2nsf-ikeless:spd]
p||{"ietf-i2nsf-ikeless:spd":{}}|bad-element missing [/ietf-i2nsf-ikeless:spd]
p||{"ietf-i2nsf-ikeless:spd":{"spd-entry":{}}}|invalid-value form [/ietf-i2nsf-ikeless:spd/spd-entry]
p||{"ietf-i2nsf-ikeless:spd":{"spd-entry":[]}}|ok
p||{"ietf-i2nsf-ikeless:spd":7,"ietf-i2nsf-ikeless:spd":{"spd-entry":[]}}|ok
p||{"ietf-i2nsf-ikeless:spd":{"spd-entry":[]},"ietf-i2nsf-ikeless:spd":7}|invalid-value form [/ietf-i2nsf-ikeless:spd]
p||{"ietf-i2nsf-ikeless:spd":{"spd-entry":[{"name":7}]}}|bad-element missing [/ietf-i2nsf-ikeless:spd/spd-entry/0]
p||{"ietf-i2nsf-ikeless:spd":{"spd-entry":[{"name":7,"a":1}]}}|unknown-element unknown [/ietf-i2nsf-ikeless:spd/spd-entry/0]
p||{"ietf-i2nsf-ikeless:spd":{"spd-entry":["p1"]}}|invalid-value form [/ietf-i2nsf-ikeless:spd/spd-entry/0]
p|"p1"|7|invalid-value form [/ietf-i2nsf-ikeless:spd/spd-entry/0/name]
p|"p1"|""|invalid-value name [/ietf-i2nsf-ikeless:spd/spd-entry/0/name]
p|"p1"|"p 1"|invalid-value name [/ietf-i2nsf-ikeless:spd/spd-entry/0/name]
p|"outbound"|"out"|bad-element unsupported [/ietf-i2nsf-ikeless:spd/spd-entry/0/direction]
p|"outbound"|true|invalid-value form [/ietf-i2nsf-ikeless:spd/spd-entry/0/direction]
p|"reqid":"1"|"reqid":1|invalid-value form [/ietf-i2nsf-ikeless:spd/spd-entry/0/reqid]
p|"reqid":"1"|"reqid":"01"|invalid-value form [/ietf-i2nsf-ikeless:spd/spd-entry/0/reqid]
p|"reqid":"1"|"reqid":"18446744073709551616"|invalid-value range [/ietf-i2nsf-ikeless:spd/spd-entry/0/reqid]
p|"reqid":"1",||ok
p|"anti-replay-window-size":64,||ok
p|64|"64"|invalid-value form [/ietf-i2nsf-ikeless:spd/spd-entry/0/ipsec-policy-config/anti-replay-window-size]
p|64|64.0|invalid-value form [/ietf-i2nsf-ikeless:spd/spd-entry/0/ipsec-policy-config/anti-replay-window-size]
p|64|18446744073709551616|invalid-value form [/ietf-i2nsf-ikeless:spd/spd-entry/0/ipsec-policy-config/anti-replay-window-size]
p|64|18446744073709551615|invalid-value range [/ietf-i2nsf-ikeless:spd/spd-entry/0/ipsec-policy-config/anti-replay-window-size]
p|64|31|invalid-value range [/ietf-i2nsf-ikeless:spd/spd-entry/0/ipsec-policy-config/anti-replay-window-size]
p|64|4097|invalid-value range [/ietf-i2nsf-ikeless:spd/spd-entry/0/ipsec-policy-config/anti-replay-window-size]
p|:17|:256|invalid-value range [/ietf-i2nsf-ikeless:spd/spd-entry/0/ipsec-policy-config/traffic-selector/inner-protocol]
p|:17|:"udp"|bad-element unsupported [/ietf-i2nsf-ikeless:spd/spd-entry/0/ipsec-policy-config/traffic-selector/inner-protocol]
p|:17|:"any"|ok
p|:17|:null|invalid-value form [/ietf-i2nsf-ikeless:spd/spd-entry/0/ipsec-policy-config/traffic-selector/inner-protocol]
p|[{"start":1,"end":2}]|7|invalid-value form [/ietf-i2nsf-ikeless:spd/spd-entry/0/ipsec-policy-config/traffic-selector/local-ports]
p|[{"start":1,"end":2}]|[{"start":1,"end":2},[]]|invalid-value form [/ietf-i2nsf-ikeless:spd/spd-entry/0/ipsec-policy-config/traffic-selector/local-ports/1]
p|{"start":1,"end":2}|{"start":1}|bad-element missing [/ietf-i2nsf-ikeless:spd/spd-entry/0/ipsec-policy-config/traffic-selector/local-ports/0]
p|{"start":1,"end":2}|{"start":"1","end":65536}|invalid-value range [/ietf-i2nsf-ikeless:spd/spd-entry/0/ipsec-policy-config/traffic-selector/local-ports/0/end]
p|{"start":3,|{"start":"3",|invalid-value form [/ietf-i2nsf-ikeless:spd/spd-entry/0/ipsec-policy-config/traffic-selector/remote-ports/0/start]
p|{"start":3,|{"start":5,|invalid-value range []
p|[{"start":1,"end":2}]|[{"start":1,"end":1},{"start":1,"end":1},{"start":1,"end":1},{"start":1,"end":1},{"start":1,"end":1},{"start":1,"end":1},{"start":1,"end":1},{"start":1,"end":1}]|ok
p|[{"start":1,"end":2}]|[{"start":1,"end":1},{"start":1,"end":1},{"start":1,"end":1},{"start":1,"end":1},{"start":1,"end":1},{"start":1,"end":1},{"start":1,"end":1},{"start":1,"end":1},{"start":1,"end":1}]|bad-element unsupported []
p|"10.1.0.0/16"|"10.1.0.0"|invalid-value form [/ietf-i2nsf-ikeless:spd/spd-entry/0/ipsec-policy-config/traffic-selector/local-prefix]
p|"10.1.0.0/16"|"256.0.0.0/x"|invalid-value form [/ietf-i2nsf-ikeless:spd/spd-entry/0/ipsec-policy-config/traffic-selector/local-prefix]
p|"10.1.0.0/16"|"256.0.0.0/8"|invalid-value range [/ietf-i2nsf-ikeless:spd/spd-entry/0/ipsec-policy-config/traffic-selector/local-prefix]
p|"10.2.0.0/16"|"10.2.0.0/33"|invalid-value range [/ietf-i2nsf-ikeless:spd/spd-entry/0/ipsec-policy-config/traffic-selector/remote-prefix]
p|,"remote-prefix":"10.2.0.0/16"||bad-element missing [/ietf-i2nsf-ikeless:spd/spd-entry/0/ipsec-policy-config/traffic-selector]
p|"bypass"|"drop"|bad-element unsupported [/ietf-i2nsf-ikeless:spd/spd-entry/0/ipsec-policy-config/processing-info/action]
p|"bypass"|[]|invalid-value form [/ietf-i2nsf-ikeless:spd/spd-entry/0/ipsec-policy-config/processing-info/action]
p|"ext-seq-num":false|"ext-seq-num":true|bad-element unsupported [/ietf-i2nsf-ikeless:spd/spd-entry/0/ipsec-policy-config/processing-info/ipsec-sa-cfg/ext-seq-num]
p|"mode":"tunnel"|"mode":"transport"|bad-element unsupported [/ietf-i2nsf-ikeless:spd/spd-entry/0/ipsec-policy-config/processing-info/ipsec-sa-cfg/mode]
p|"mode":"tunnel"|"mode":0|invalid-value form [/ietf-i2nsf-ikeless:spd/spd-entry/0/ipsec-policy-config/processing-info/ipsec-sa-cfg/mode]
p|"pfp-flag":false|"pfp-flag":0|invalid-value form [/ietf-i2nsf-ikeless:spd/spd-entry/0/ipsec-policy-config/processing-info/ipsec-sa-cfg/pfp-flag]
p|"esp"|"ah"|bad-element unsupported [/ietf-i2nsf-ikeless:spd/spd-entry/0/ipsec-policy-config/processing-info/ipsec-sa-cfg/protocol-parameters]
p|"seq-overflow":false|"seq-overflow":true|bad-element unsupported [/ietf-i2nsf-ikeless:spd/spd-entry/0/ipsec-policy-config/processing-info/ipsec-sa-cfg/seq-overflow]
p|"stateful-frag-check":false|"stateful-frag-check":true|bad-element unsupported [/ietf-i2nsf-ikeless:spd/spd-entry/0/ipsec-policy-config/processing-info/ipsec-sa-cfg/stateful-frag-check]
p|"stateful-frag-check":false|"ipcomp":false|unknown-element unknown [/ietf-i2nsf-ikeless:spd/spd-entry/0/ipsec-policy-config/processing-info/ipsec-sa-cfg]
p|"processing-info"|"a"|unknown-element unknown [/ietf-i2nsf-ikeless:spd/spd-entry/0/ipsec-policy-config]
p|}]}}|},{"name":"p1","direction":"inbound","ipsec-policy-config":{"traffic-selector":{"local-prefix":"::/0","remote-prefix":"::/0"}}}]}}|invalid-value name []
p|}]}}|},{"name":"p2","direction":"inbound","ipsec-policy-config":{"traffic-selector":{"local-prefix":"::/0","remote-prefix":"::/0"}}}]}}|ok
p|}]}}|},{"name":"p2","direction":"in","ipsec-policy-config":{"traffic-selector":{"local-prefix":"::/0","remote-prefix":"::/0"}}}]}}|bad-element unsupported [/ietf-i2nsf-ikeless:spd/spd-entry/1/direction]
e|p1|p1|ok
e||{"ietf-i2nsf-ikeless:spd-entry":7}|invalid-value form [/ietf-i2nsf-ikeless:spd-entry]
e||{"ietf-i2nsf-ikeless:spd-entry":[]}|bad-element missing [/ietf-i2nsf-ikeless:spd-entry]
e||{"ietf-i2nsf-ikeless:spd-entry":[7,7]}|bad-element missing [/ietf-i2nsf-ikeless:spd-entry]
e||{"ietf-i2nsf-ikeless:spd-entry":[7]}|invalid-value form [/ietf-i2nsf-ikeless:spd-entry/0]
a|in/1|in/1|ok
a|"in/1"|"1"|invalid-value name [/ietf-i2nsf-ikeless:sad-entry/0/name]
a|"in/1"|1|invalid-value form [/ietf-i2nsf-ikeless:sad-entry/0/name]
a|"name":"in/1",||bad-element missing [/ietf-i2nsf-ikeless:sad-entry/0]
a|"reqid":"10"|"ipsec-sa-state":{}|unknown-element unknown [/ietf-i2nsf-ikeless:sad-entry/0]
a|"ipsec-sa-config"|"config"|unknown-element unknown [/ietf-i2nsf-ikeless:sad-entry/0]
a|256|255|invalid-value range [/ietf-i2nsf-ikeless:sad-entry/0/ipsec-sa-config/spi]
a|256|4294967296|invalid-value range [/ietf-i2nsf-ikeless:sad-entry/0/ipsec-sa-config/spi]
a|256|-256|invalid-value form [/ietf-i2nsf-ikeless:sad-entry/0/ipsec-sa-config/spi]
a|"spi":256,||bad-element missing [/ietf-i2nsf-ikeless:sad-entry/0/ipsec-sa-config]
a|"ext-seq-num":false|"ext-seq-num":"false"|invalid-value form [/ietf-i2nsf-ikeless:sad-entry/0/ipsec-sa-config/ext-seq-num]
a|"ext-seq-num":false|"ext-seq-num":true|bad-element unsupported [/ietf-i2nsf-ikeless:sad-entry/0/ipsec-sa-config/ext-seq-num]
a|"seq-overflow":false|"seq-overflow":true|bad-element unsupported [/ietf-i2nsf-ikeless:sad-entry/0/ipsec-sa-config/seq-overflow]
a|64|0|invalid-value range [/ietf-i2nsf-ikeless:sad-entry/0/ipsec-sa-config/anti-replay-window-size]
a|"traffic-selector":{"|"traffic-selector":{"a":1,"|unknown-element unknown [/ietf-i2nsf-ikeless:sad-entry/0/ipsec-sa-config/traffic-selector]
a|"esp","mode"|"ah","mode"|bad-element unsupported [/ietf-i2nsf-ikeless:sad-entry/0/ipsec-sa-config/protocol-parameters]
a|"mode":"tunnel"|"mode":"transport"|bad-element unsupported [/ietf-i2nsf-ikeless:sad-entry/0/ipsec-sa-config/mode]
a|"encryption":{|"integrity":{|unknown-element unknown [/ietf-i2nsf-ikeless:sad-entry/0/ipsec-sa-config/esp-sa]
a|:20,|:12,|bad-element unsupported [/ietf-i2nsf-ikeless:sad-entry/0/ipsec-sa-config/esp-sa/encryption/encryption-algorithm]
a|:20,|:"20",|invalid-value form [/ietf-i2nsf-ikeless:sad-entry/0/ipsec-sa-config/esp-sa/encryption/encryption-algorithm]
a|"encryption-algorithm":20,||ok
a|"key"|"a"|unknown-element unknown [/ietf-i2nsf-ikeless:sad-entry/0/ipsec-sa-config/esp-sa/encryption]
a|:0a:|:0A:|ok
a|:0a:|:a:|invalid-value form [/ietf-i2nsf-ikeless:sad-entry/0/ipsec-sa-config/esp-sa/encryption/key]
a|:0a:|:|invalid-value range [/ietf-i2nsf-ikeless:sad-entry/0/ipsec-sa-config/esp-sa/encryption/key]
a|3600|4294967296|invalid-value range [/ietf-i2nsf-ikeless:sad-entry/0/ipsec-sa-config/sa-lifetime-hard/time]
a|"packets":5|"packets":"5"|invalid-value form [/ietf-i2nsf-ikeless:sad-entry/0/ipsec-sa-config/sa-lifetime-hard/packets]
a|"idle":6|"idle":0.5|invalid-value form [/ietf-i2nsf-ikeless:sad-entry/0/ipsec-sa-config/sa-lifetime-hard/idle]
a|"bytes":"7"|"bytes":7|invalid-value form [/ietf-i2nsf-ikeless:sad-entry/0/ipsec-sa-config/sa-lifetime-hard/bytes]
a|"bytes":"7"|"bytes":"7","action":"replace"|unknown-element unknown [/ietf-i2nsf-ikeless:sad-entry/0/ipsec-sa-config/sa-lifetime-hard]
a|"replace"|"terminate"|bad-element unsupported [/ietf-i2nsf-ikeless:sad-entry/0/ipsec-sa-config/sa-lifetime-soft/action]
a|"time":600,||ok
a|"local":"192.0.2.1"|"local":"192.0.2"|invalid-value form [/ietf-i2nsf-ikeless:sad-entry/0/ipsec-sa-config/tunnel/local]
a|"remote":"192.0.2.2"|"remote":"192.0.2.256"|invalid-value range [/ietf-i2nsf-ikeless:sad-entry/0/ipsec-sa-config/tunnel/remote]
a|"remote":"192.0.2.2"|"remote":"2001:db8::2"|bad-element unsupported []
a|"local":"192.0.2.1",||bad-element missing [/ietf-i2nsf-ikeless:sad-entry/0/ipsec-sa-config/tunnel]
a|"copy"|"clear"|ok
a|"copy"|"keep"|bad-element unsupported [/ietf-i2nsf-ikeless:sad-entry/0/ipsec-sa-config/tunnel/df-bit]
l|"a"|"a"|ok
l|"a"|"A"|invalid-value name [/ikl-control:input/gateway]
l|"a"|1|invalid-value form [/ikl-control:input/gateway]
l|,"spd-entry":[]||bad-element missing [/ikl-control:input]
l|[]|{}|invalid-value form [/ikl-control:input/spd-entry]
l|[]|[7]|invalid-value form [/ikl-control:input/spd-entry/0]
t|"a"|"a"|ok
t|"now"|"acquire"|ok
t|"now"|"later"|bad-element unsupported [/ikl-control:input/mode]
t|"first":"a"|"first":""|invalid-value name [/ikl-control:input/first]
t|"second":"b"|"second":"b b"|invalid-value name [/ikl-control:input/second]
t|"10.1.0.0/16"|"10.1.0.0/"|invalid-value form [/ikl-control:input/first-prefix]
t|"10.2.0.0/16"|"10.2.0.0/99"|invalid-value range [/ikl-control:input/second-prefix]
t|64|8192|invalid-value range [/ikl-control:input/anti-replay-window-size]
t|"reqid":"10"|"reqid":10|invalid-value form [/ikl-control:input/reqid]
t|"reqid":"10",||bad-element missing [/ikl-control:input]
t|"anti-replay-window-size":64,||bad-element missing [/ikl-control:input]
t|"hard":{"time":1},||ok
t|"time":1|"action":"replace"|unknown-element unknown [/ikl-control:input/hard]
t|"bytes":"2"|"action":"replace"|unknown-element unknown [/ikl-control:input/soft]
t|"time":1|"time":"1"|invalid-value form [/ikl-control:input/hard/time]
t|"reqid":"10"|"reqid":"10","ext-seq-num":false|unknown-element unknown [/ikl-control:input]
d||{"ikl-control:input":{"reqid":"10"}}|ok
d||{"ikl-control:input":{}}|bad-element missing [/ikl-control:input]
d||{"input":{"reqid":"10"}}|unknown-element unknown []
d||{"ikl-control:input":{"reqid":"x"}}|invalid-value form [/ikl-control:input/reqid]
r||{"ikl-control:input":{"reqid":"18446744073709551616"}}|invalid-value range [/ikl-control:input/reqid]
k||{"ikl-control:input":{"key":""}}|ok
k||{"ikl-control:input":{"key":"0"}}|invalid-value form [/ikl-control:input/key]
k||{"ikl-control:input":{"key":7}}|invalid-value form [/ikl-control:input/key]
"#;

fn base(call: &str) -> &'static str {
    match call {
        "p" => POLICIES,
        "e" => POLICY,
        "a" => SAD_ENTRY,
        "l" => LIST,
        _ => TUNNEL,
    }
}

// A body with this text in the place of that.
fn body(alloc: Global, call: &str, old: &str, new: &str) -> Result<Octets, NoMemory> {
    if old.is_empty() {
        return Octets::from_slice(alloc, new.as_bytes());
    }
    let (front, back) = base(call).split_once(old).unwrap_or(("not there", ""));
    let mut text = Vec::new(alloc);
    text.extend_from_slice(front.as_bytes())?;
    text.extend_from_slice(new.as_bytes())?;
    text.extend_from_slice(back.as_bytes())?;
    Ok(Octets::from_items(text))
}

fn fault_text(alloc: Global, fault: &CodecFault) -> Result<Octets, NoMemory> {
    let mut text = Vec::new(alloc);
    text.extend_from_slice(fault.tag.text().as_bytes())?;
    text.push(b' ')?;
    text.extend_from_slice(fault.app.text().as_bytes())?;
    let Some(path) = &fault.path else {
        text.extend_from_slice(b" -")?;
        return Ok(Octets::from_items(text));
    };
    text.extend_from_slice(b" [")?;
    text.extend_from_slice(path.as_slice())?;
    text.push(b']')?;
    Ok(Octets::from_items(text))
}

fn told<T: Drop>(alloc: Global, got: Result<T, OrMemory<CodecFault>>) -> Result<Octets, NoMemory> {
    match got {
        Ok(_) => Octets::from_slice(alloc, b"ok"),
        Err(OrMemory::Refused(fault)) => fault_text(alloc, &fault),
        Err(OrMemory::NoMemory) => Err(NoMemory),
    }
}

fn list_answer(alloc: Global, body: &[u8]) -> Result<Octets, NoMemory> {
    let operation = Name::from_slice(alloc, b"policy")?;
    told(alloc, read_command(alloc, &operation, body))
}

fn tunnel_answer(alloc: Global, body: &[u8]) -> Result<Octets, NoMemory> {
    let operation = Name::from_slice(alloc, b"tunnel")?;
    told(alloc, read_command(alloc, &operation, body))
}

fn end_answer(alloc: Global, body: &[u8]) -> Result<Octets, NoMemory> {
    let operation = Name::from_slice(alloc, b"end")?;
    told(alloc, read_command(alloc, &operation, body))
}

fn rekey_answer(alloc: Global, body: &[u8]) -> Result<Octets, NoMemory> {
    let operation = Name::from_slice(alloc, b"rekey")?;
    told(alloc, read_command(alloc, &operation, body))
}

fn keys_answer(alloc: Global, body: &[u8]) -> Result<Octets, NoMemory> {
    let operation = Name::from_slice(alloc, b"keys")?;
    told(alloc, read_command(alloc, &operation, body))
}

fn answered(alloc: Global, call: &str, body: &[u8]) -> Result<Octets, NoMemory> {
    match call {
        "p" => told(alloc, read_spd(alloc, body)),
        "e" => told(alloc, read_spd_entry(alloc, body)),
        "a" => told(alloc, read_sad_entry(alloc, body)),
        "l" => list_answer(alloc, body),
        "t" => tunnel_answer(alloc, body),
        "d" => end_answer(alloc, body),
        "r" => rekey_answer(alloc, body),
        _ => keys_answer(alloc, body),
    }
}

fn cut(line: &str) -> (&str, &str) {
    line.split_once('|').unwrap_or((line, "no column"))
}

// Whether a row has the answer that stands in it.
fn holds(alloc: Global, line: &str) -> Result<bool, NoMemory> {
    let (call, rest) = cut(line);
    let (old, rest) = cut(rest);
    let (new, want) = cut(rest);
    let body = body(alloc, call, old, new)?;
    let got = answered(alloc, call, body.as_slice())?;
    Ok(got.as_slice() == want.as_bytes())
}

#[test]
fn answers_are_told(rt: HostRuntime) -> Result<(), Fail> {
    for line in ANSWERS.lines() {
        let holds = holds(rt.alloc(), line)?;
        assert!(rt; holds, "{line}");
    }
    Ok(())
}

// A body of so many policies, and what stands in the last of them beside its leaves.
fn of_policies(alloc: Global, count: u64, last: &str) -> Result<String, NoMemory> {
    let mut text = String::from_str(alloc, r#"{"ietf-i2nsf-ikeless:spd":{"spd-entry":["#)?;
    for k in 0..count {
        let entry = format!(in alloc;
            r#"{{"name":"p{k}","direction":"inbound","ipsec-policy-config":{{"traffic-selector":{{"local-prefix":"::/0","remote-prefix":"::/0"}}}}}},"#
        )?;
        text.push_str(entry.as_str())?;
    }
    text.push_str(
        r#"{"name":"last","direction":"inbound","ipsec-policy-config":{"traffic-selector":{"local-prefix":"::/0","remote-prefix":"::/0"}}"#,
    )?;
    text.push_str(last)?;
    text.push_str("}]}}")?;
    Ok(text)
}

#[test]
fn lists_have_at_most_256_policies(rt: HostRuntime) -> Result<(), Fail> {
    let alloc = rt.alloc();
    let rows = [
        (255, "", "ok"),
        (256, "", "resource-denied full []"),
        (
            256,
            r#","a":1"#,
            "unknown-element unknown [/ietf-i2nsf-ikeless:spd/spd-entry/256]",
        ),
    ];
    for (count, last, want) in rows {
        let text = of_policies(alloc, count, last)?;
        let got = told(alloc, read_spd(alloc, text.as_bytes()))?;
        assert!(rt; got.as_slice() == want.as_bytes(), "{want}");
    }
    Ok(())
}

// So many lists in one another.
fn nested(alloc: Global, depth: u64) -> Result<String, NoMemory> {
    let mut text = String::new(alloc);
    for _ in 0..depth {
        text.push('[')?;
    }
    for _ in 0..depth {
        text.push(']')?;
    }
    Ok(text)
}

#[test]
fn bodies_nest_at_most_127_deep(rt: HostRuntime) -> Result<(), Fail> {
    let alloc = rt.alloc();
    for (depth, want) in [
        (127, "invalid-value form []"),
        (128, "malformed-message json -"),
    ] {
        let text = nested(alloc, depth)?;
        let got = told(alloc, read_spd(alloc, text.as_bytes()))?;
        assert!(rt; got.as_slice() == want.as_bytes(), "{want}");
    }
    Ok(())
}

#[test]
fn bodies_are_utf8(rt: HostRuntime) -> Result<(), Fail> {
    let alloc = rt.alloc();
    let got = told(alloc, read_spd(alloc, b"{\"\xff\":1}"))?;
    assert!(rt; got.as_slice() == b"malformed-message json -".as_slice());
    Ok(())
}
