// Orders as requests, and replies as responses.
ghost use Rattle.std.specs.Prelude.{◌≡◌, ◌∷◌, [], IfOk, OnOk};
ghost use Rattle.http_header.specs.HeaderMap.{append, append_all};
ghost use Rattle.http_header.specs.FieldValue.{plain_value};
ghost use Rattle.std.specs.Prelude.{map, Ok};
ghost use Rattle.reply_table.specs.Order.{ask_of};
ghost use Rattle.rc_request.specs.Requests.{request_of};
ghost use Rattle.rc_http.specs.Heads.{fields_map, lowered};
ghost use Rattle.rc_resource.specs.Messages.{host_text, if_type, length_field, order_body, order_message, order_method, order_target, own_field, reply_message, request_fields, response_fields, type_field, IsOrder};

use crate::laws::orders_are_read;
use crate::reply::Reply;
use http_header::{
    ALLOW, CONTENT_LENGTH, CONTENT_TYPE, HOST, HeaderMap, HeaderName, HeaderValue, LOCATION,
};
use ikeless_tree::Order;
use ikl_base::{Addr, NoMemory, Octets};
use json_codec::{write_sad_entry, write_spd};
use rc_http::HttpMessage;
use rc_request::path_of_half;
use std::alloc::Global;
use yang_values::{write_address, write_u64};

type Fields = HeaderMap<HeaderValue>;

fn put(alloc: Global, fields: &mut Fields, name: HeaderName, value: &[u8]) -> Result<(), NoMemory>
    ensures { OnOk result (fields.new ≡ append fields.old name (plain_value value.now)) }
{
    let Ok(value) = HeaderValue::from_bytes(alloc, value) else {
        return Err(NoMemory);
    };
    match fields.append(name, value) {
        Ok(_) => Ok(()),
        Err(_) => Err(NoMemory),
    }
}

fn put_type(alloc: Global, fields: &mut Fields) -> Result<(), NoMemory>
    ensures { OnOk result (fields.new ≡ append_all fields.old (lowered type_field ∷ [])) }
{
    put(alloc, fields, CONTENT_TYPE, b"application/yang-data+json")
}

fn put_length(alloc: Global, fields: &mut Fields, body: &[u8]) -> Result<(), NoMemory>
    ensures { OnOk result (fields.new ≡ append_all fields.old (lowered (length_field body.now) ∷ [])) }
{
    let digits = write_u64(alloc, body.len() as u64)?;
    put(alloc, fields, CONTENT_LENGTH, digits.as_slice())
}

// The fields of a request.
fn request_fields(alloc: Global, host: &[u8], body: &[u8]) -> Result<Fields, NoMemory>
    ensures { IfOk result (λ fields. fields ≡ fields_map (request_fields host.now body.now)) }
{
    let mut fields = HeaderMap::new(alloc);
    put(alloc, &mut fields, HOST, host)?;
    if body.is_empty() {
        return Ok(fields);
    }
    put_type(alloc, &mut fields)?;
    put_length(alloc, &mut fields, body)?;
    Ok(fields)
}

// The host of a request (RFC 9110 section 7.2).
fn host_octets(alloc: Global, host: &Addr) -> Result<Octets, NoMemory>
    ensures { IfOk result (λ text. text ≡ host_text host.now) }
{
    let text = write_address(alloc, host)?;
    match host {
        Addr::V4(_) => Ok(text),
        Addr::V6(_) => {
            let mut octets = Vec::new(alloc);
            octets.push(b'[')?;
            octets.extend_from_slice(text.as_slice())?;
            octets.push(b']')?;
            Ok(Octets::from_items(octets))
        }
    }
}

fn method_of(o: &Order) -> &'static [u8]
    ensures { result.now ≡ order_method o.now }
{
    match o {
        Order::Read => b"GET",
        Order::Policy(_) => b"PUT",
        Order::Put(_) => b"POST",
        Order::Remove(_) => b"DELETE",
    }
}

fn target_of(alloc: Global, o: &Order) -> Result<Octets, NoMemory>
    ensures { IfOk result (λ text. text ≡ order_target o.now) }
{
    match o {
        Order::Policy(_) => Octets::from_slice(
            alloc,
            b"/restconf/data/ietf-i2nsf-ikeless:ipsec-ikeless/spd",
        ),
        Order::Read | Order::Put(_) => Octets::from_slice(
            alloc,
            b"/restconf/data/ietf-i2nsf-ikeless:ipsec-ikeless/sad",
        ),
        Order::Remove(name) => path_of_half(alloc, name),
    }
}

fn body_of(alloc: Global, o: &Order) -> Result<Octets, NoMemory>
    requires { IsOrder o.now }
    ensures { IfOk result (λ text. text ≡ order_body o.now) }
{
    match o {
        Order::Policy(list) => write_spd(alloc, list),
        Order::Put(e) => write_sad_entry(alloc, e),
        Order::Read | Order::Remove(_) => Ok(Octets::new(alloc)),
    }
}

fn order_with_body(alloc: Global, host: &Addr, o: &Order) -> Result<HttpMessage, NoMemory>
    requires { IsOrder o.now }
    ensures { IfOk result (λ m. m ≡ order_message host.now o.now) }
{
    let body = body_of(alloc, o)?;
    let host = host_octets(alloc, host)?;
    let fields = request_fields(alloc, host.as_slice(), body.as_slice())?;
    let target = target_of(alloc, o)?;
    Ok(HttpMessage {
        method: Octets::from_slice(alloc, method_of(o))?,
        target,
        status: 0,
        fields,
        body,
    })
}

/// The request that carries an order to a gateway at this address. It is read as what that order asks.
pub fn order_request(alloc: Global, host: &Addr, o: &Order) -> Result<HttpMessage, NoMemory>
    requires { IsOrder o.now }
    ensures message { IfOk result (λ m. m ≡ order_message host.now o.now) }
    ensures asks { IfOk result (λ m. request_of m ≡ Ok (ask_of o.now)) }
{
    o.numbers_fit();
    orders_are_read();
    order_with_body(alloc, host, o)
}

fn put_own(alloc: Global, fields: &mut Fields, r: &Reply) -> Result<(), NoMemory>
    ensures { OnOk result (fields.new ≡ append_all fields.old (map lowered (own_field r.now))) }
{
    match r.status {
        201 => put(alloc, fields, LOCATION, r.location.as_slice()),
        405 => put(alloc, fields, ALLOW, r.allow.as_slice()),
        _ => Ok(()),
    }
}

fn put_type_of(alloc: Global, fields: &mut Fields, body: &[u8]) -> Result<(), NoMemory>
    ensures { OnOk result (fields.new ≡ append_all fields.old (map lowered (if_type body.now))) }
{
    if body.is_empty() {
        return Ok(());
    }
    put_type(alloc, fields)
}

// The fields of a response.
fn reply_fields(alloc: Global, r: &Reply) -> Result<Fields, NoMemory>
    ensures { IfOk result (λ fields. fields ≡ fields_map (response_fields r.now)) }
{
    let mut fields = HeaderMap::new(alloc);
    if r.status == 204 {
        return Ok(fields);
    }
    put_length(alloc, &mut fields, r.body.as_slice())?;
    put_type_of(alloc, &mut fields, r.body.as_slice())?;
    put_own(alloc, &mut fields, r)?;
    Ok(fields)
}

/// The response that carries a reply.
pub fn reply_response(alloc: Global, r: &Reply) -> Result<HttpMessage, NoMemory>
    ensures { IfOk result (λ m. m ≡ reply_message r.now) }
{
    let fields = reply_fields(alloc, r)?;
    Ok(HttpMessage {
        method: Octets::new(alloc),
        target: Octets::new(alloc),
        status: r.status,
        fields,
        body: Octets::from_slice(alloc, r.body.as_slice())?,
    })
}
