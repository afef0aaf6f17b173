use crate::inputs::conn_of;
use crate::rows::input_of;
use case_rows::spelled;
use front_base::NoMemory;
use front_ports::MemConn;
use http_edge::{Edge, End, Request, Stop, asks, put_reply};
use std::alloc::{AllocError, Global};

// Why no other request follows a request, if none does.
fn end_after(request: &Request) -> Option<Stop> {
    if asks(request) {
        Some(Stop::Refused(End::Asked))
    } else {
        None
    }
}

fn push_request(alloc: Global, out: &mut String, request: &Request) -> Result<(), AllocError> {
    let body = spelled(alloc, request.body.as_slice());
    let method = request.head.method.as_str();
    let target = request.head.target.as_str();
    write!(out, "{method} {target} \"{body}\", ")
}

// Shows the next request, and says why no more come, if none do.
fn push_next(
    alloc: Global,
    out: &mut String,
    conn: &mut MemConn,
    edge: &mut Edge,
) -> Result<Option<Stop>, AllocError> {
    match edge.next_request(alloc, conn) {
        Ok(request) => {
            let shown = push_request(alloc, out, &request);
            let end = end_after(&request);
            drop(request);
            shown?;
            Ok(end)
        }
        Err(stop) => Ok(Some(stop)),
    }
}

fn push_all(
    alloc: Global,
    out: &mut String,
    conn: &mut MemConn,
    edge: &mut Edge,
) -> Result<(), AllocError> {
    for _ in 0..100 {
        if let Some(stop) = push_next(alloc, out, conn, edge)? {
            return write!(out, "{stop:?}");
        }
    }
    Ok(())
}

/// The requests of a connection, one after another, and why no more come: `Asked` after a last one.
pub fn requests_from(alloc: Global, out: &mut String, conn: &mut MemConn) -> Result<(), NoMemory> {
    let mut edge = Edge::new(alloc)?;
    let shown = push_all(alloc, out, conn, &mut edge);
    drop(edge);
    Ok(shown?)
}

// How many bytes the body of the next request has, or why there is none.
fn next_size(alloc: Global, conn: &mut MemConn, edge: &mut Edge) -> Result<usize, Stop> {
    match edge.next_request(alloc, conn) {
        Ok(request) => {
            let size = request.body.as_slice().len();
            drop(request);
            Ok(size)
        }
        Err(stop) => Err(stop),
    }
}

fn push_count(
    alloc: Global,
    out: &mut String,
    conn: &mut MemConn,
    edge: &mut Edge,
) -> Result<(), AllocError> {
    let mut bytes = 0usize;
    for count in 0..200_000 {
        match next_size(alloc, conn, edge) {
            Ok(size) => bytes = bytes.saturating_add(size),
            Err(stop) => return write!(out, "{count} requests, {bytes} bytes, {stop:?}"),
        }
    }
    Ok(())
}

/// How many requests a connection has, how many bytes their bodies have, and why no more come.
pub fn count_from(alloc: Global, out: &mut String, conn: &mut MemConn) -> Result<(), NoMemory> {
    let mut edge = Edge::new(alloc)?;
    let shown = push_count(alloc, out, conn, &mut edge);
    drop(edge);
    Ok(shown?)
}

/// Writes a reply to a connection that takes 64 bytes, and shows what it took.
pub fn show_write(alloc: Global, out: &mut String, row: &str) -> Result<(), NoMemory> {
    let reply = input_of(alloc, row);
    match conn_of(alloc, Vec::new(alloc), 1, Vec::new(alloc)) {
        Ok(mut conn) => {
            let put = put_reply(&mut conn, reply.as_slice());
            let output = spelled(alloc, conn.output());
            drop(conn);
            Ok(write!(out, "{put:?}, \"{output}\"")?)
        }
        Err(fault) => Err(fault),
    }
}
