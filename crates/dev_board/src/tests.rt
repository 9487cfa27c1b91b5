use super::*;
use std::alloc::{AllocError, Global};
use std::test::Fail;

/// A call of a board: what it asks of the device of a number.
#[derive(Clone, Copy)]
enum Call<'a> {
    In(usize),
    Out(usize, &'a str),
    Drop(usize),
}

/// A device that gives these bytes, and fails at the gives and takes of this number.
fn device(alloc: Global, input: &str, failing: u64) -> Result<MemDevice, AllocError> {
    let input = input.as_bytes().to_vec(alloc)?;
    let mut gives = Vec::new(alloc);
    gives.push(failing)?;
    let mut takes = Vec::new(alloc);
    takes.push(failing)?;
    Ok(MemDevice::new(alloc, input, gives, takes))
}

/// What a call answers, as a text. A device gives two bytes at most.
fn answer<D: Device>(
    alloc: Global,
    board: &mut Board<D>,
    call: Call<'_>,
) -> Result<String, AllocError> {
    match call {
        Call::In(device) => pumped_in(alloc, board, device),
        Call::Out(device, bytes) => pumped_out(alloc, board, device, bytes),
        Call::Drop(device) => {
            board.drop_device(device);
            String::from_str(alloc, "let go")
        }
    }
}

fn pumped_in<D: Device>(
    alloc: Global,
    board: &mut Board<D>,
    device: usize,
) -> Result<String, AllocError> {
    if !board.live(device) {
        return String::from_str(alloc, "none");
    }
    let mut bytes = [0; 2];
    match board.pump_in(device, &mut bytes) {
        Ok(count) => {
            let mut text = format!(in alloc; "{count}:")?;
            for byte in bytes.iter().take(count) {
                text.push(char::from(*byte))?;
            }
            Ok(text)
        }
        Err(Failed(number)) => format!(in alloc; "{number} failed"),
    }
}

fn pumped_out<D: Device>(
    alloc: Global,
    board: &mut Board<D>,
    device: usize,
    bytes: &str,
) -> Result<String, AllocError> {
    if !board.live(device) {
        return String::from_str(alloc, "none");
    }
    match board.pump_out(device, bytes.as_bytes()) {
        Ok(()) => String::from_str(alloc, "taken"),
        Err(Failed(number)) => format!(in alloc; "{number} failed"),
    }
}

/// What devices hold, in the order of their numbers, as a text; a line stands for one that was let go.
fn held(alloc: Global, devices: &Devices<MemDevice>) -> Result<String, AllocError> {
    let mut text = String::new(alloc);
    for number in 0..devices.count() {
        match devices.get(number) {
            Some(device) => {
                text.push('[')?;
                for byte in device.contents() {
                    text.push(char::from(*byte))?;
                }
                text.push(']')?;
            }
            None => text.push('-')?,
        }
    }
    Ok(text)
}

/// A call over devices, as a text of what it answers and what they hold then, and the devices.
fn called(
    alloc: Global,
    devices: Devices<MemDevice>,
    call: Call<'_>,
) -> Result<(String, Devices<MemDevice>), AllocError> {
    let mut board = Board::new(devices);
    let mut text = answer(alloc, &mut board, call)?;
    let devices = board.into_devices();
    text.push(' ')?;
    text.push_str(held(alloc, &devices)?.as_str())?;
    Ok((text, devices))
}

/// Two devices, the second of which fails at its second give and at its second take.
fn devices(alloc: Global) -> Result<Devices<MemDevice>, AllocError> {
    let mut list = Vec::new(alloc);
    list.push(device(alloc, "q", 9)?)?;
    list.push(device(alloc, "abcde", 1)?)?;
    Devices::new(alloc, list)
}

#[test]
fn what_a_board_answers_and_what_its_devices_hold(rt: HostRuntime) -> Result<(), Fail> {
    let table = [
        (Call::In(1), "2:ab [][]"),
        (Call::In(1), "1 failed [][]"),
        // what it had left stayed
        (Call::In(1), "2:cd [][]"),
        (Call::In(1), "1:e [][]"),
        (Call::In(1), "0: [][]"),
        (Call::Out(1, "wxyz"), "taken [][wxyz]"),
        (Call::Out(1, "1234"), "1 failed [][wxyz12]"),
        (Call::Out(1, "5"), "taken [][wxyz125]"),
        (Call::Out(0, "r"), "taken [r][wxyz125]"),
        // there is none of this number
        (Call::Drop(2), "let go [r][wxyz125]"),
        (Call::In(2), "none [r][wxyz125]"),
        (Call::Out(2, "r"), "none [r][wxyz125]"),
        (Call::Drop(1), "let go [r]-"),
        (Call::In(1), "none [r]-"),
        (Call::Out(1, "6"), "none [r]-"),
        (Call::Drop(1), "let go [r]-"),
        (Call::In(0), "1:q [r]-"),
        (Call::Out(0, "s"), "taken [rs]-"),
        (Call::Drop(0), "let go --"),
    ];
    let alloc = rt.alloc();
    let mut devices = devices(alloc)?;
    for (call, text) in table {
        let (answered, after) = called(alloc, devices, call)?;
        assert_eq!(rt; answered.as_str(), text);
        devices = after;
    }
    Ok(())
}

#[test]
fn devices_in_boxes(rt: HostRuntime) -> Result<(), Fail> {
    let table = [
        (Call::In(0), "2:ab"),
        (Call::In(0), "0 failed"),
        (Call::In(0), "1:c"),
        (Call::Out(0, "xy"), "taken"),
        (Call::Out(0, "z"), "0 failed"),
        (Call::In(1), "0:"),
        (Call::Drop(0), "let go"),
        (Call::Out(0, "z"), "none"),
        (Call::Out(1, "z"), "taken"),
    ];
    let alloc = rt.alloc();
    let mut list: Vec<Box<dyn Device + Send>> = Vec::new(alloc);
    list.push(Box::new(alloc, device(alloc, "abc", 1)?)?)?;
    list.push(Box::new(alloc, device(alloc, "", 9)?)?)?;
    let mut board = Board::new(Devices::new(alloc, list)?);
    for (call, text) in table {
        let answered = answer(alloc, &mut board, call)?;
        assert_eq!(rt; answered.as_str(), text);
    }
    Ok(())
}
