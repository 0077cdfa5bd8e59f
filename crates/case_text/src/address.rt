// Addresses and ports as text.
use crate::pieces::octets;
use crate::trouble::Trouble;
use std::alloc::Global;

/// An address of IEEE 802, six octets in hexadecimal digits with colons between them.
pub fn ethernet_address(alloc: Global, text: &str) -> Result<Vec<u8>, Trouble> {
    let mut all = Vec::new(alloc);
    for piece in text.split(':') {
        all.extend_from_slice(&octets(alloc, piece)?)?;
    }
    if all.len() == 6 {
        Ok(all)
    } else {
        Err(Trouble::Form("an address that hasn't six octets"))
    }
}

// The two sides of `SOURCE>DESTINATION`.
fn sides(text: &str) -> Result<(&str, &str), Trouble> {
    text.split_once('>').ok_or(Trouble::Form("no source and destination with > between them"))
}

/// The octets of the two addresses of `SOURCE>DESTINATION`.
pub fn ip_pair(alloc: Global, text: &str) -> Result<Vec<u8>, Trouble> {
    let (source, destination) = sides(text)?;
    let mut all = ip(alloc, source)?;
    all.extend_from_slice(&ip(alloc, destination)?)?;
    Ok(all)
}

/// The octets of the two ports of `SOURCE>DESTINATION`, the highest first.
pub fn ports(alloc: Global, text: &str) -> Result<Vec<u8>, Trouble> {
    let (source, destination) = sides(text)?;
    let mut all = Vec::new(alloc);
    for number in [source, destination] {
        all.extend_from_slice(&port(number)?.to_be_bytes())?;
    }
    Ok(all)
}

/// The address and the port of `ADDRESS:PORT`.
pub fn peer(alloc: Global, text: &str) -> Result<([u8; 4], u16), Trouble> {
    let (address, number) = text
        .split_once(':')
        .ok_or(Trouble::Form("no address and port with : between them"))?;
    match ip(alloc, address)?.as_slice() {
        [first, second, third, fourth] => Ok(([*first, *second, *third, *fourth], port(number)?)),
        _ => Err(Trouble::Form("an address of IP that hasn't four numbers")),
    }
}

fn port(text: &str) -> Result<u16, Trouble> {
    text.parse::<u16>().map_err(|_| Trouble::Form("no port"))
}

/// The octets of an address of IP, four numbers with dots between them.
pub fn ip(alloc: Global, text: &str) -> Result<Vec<u8>, Trouble> {
    let mut all = Vec::new(alloc);
    for piece in text.split('.') {
        let octet = piece
            .parse::<u8>()
            .map_err(|_| Trouble::Form("no address of IP"))?;
        all.push(octet)?;
    }
    if all.len() == 4 {
        Ok(all)
    } else {
        Err(Trouble::Form("an address of IP that hasn't four numbers"))
    }
}
