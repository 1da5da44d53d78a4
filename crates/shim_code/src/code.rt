// The code of a program.
ghost use Rattle.std.specs.Prelude.{◌≡◌, map};
ghost use Rattle.shim_code.specs.Programs.{code_units, machine_units};
ghost use Rattle.shim_code.specs.Published.{published_all};
ghost use Rattle.shim_code.specs.declared.unit.CodeUnit.{CodeUnit};

use crate::machine_instr::MachineInstr;
use shim_base::List;
use shim_units::Accepted;
use std::marker::Model;

/// The code of an accepted program, which contracts see as the program: of each unit the list that the
/// machine runs. The list to print is made when it is printed.
#[derive(Drop)]
pub struct Code {
    program: Accepted,
    machine: List<List<MachineInstr>>,
}

impl Model for Code {
    ghost use Rattle.std.specs.Prelude.{◌≡◌};
    ghost use Rattle.std.specs.Coded.{codes};
    ghost use Rattle.shim_units.specs.contracts.unit.Unit as unit;
    ghost use Rattle.shim_units.specs.declared.form.Form.{Form};
    ghost use Rattle.shim_code.specs.Programs.{machine_units};

    ghost Value = { Form };

    ghost coded = { Prim.hlevel (codes, unit.the_row.coded) };

    ghost view = { λ code. code.program };

    ghost invariant = { λ code. code.machine ≡ machine_units code.program.units code.program.units };
}

impl Code {
    /// The code of this program, from what the machine runs for each of its units.
    pub(crate) fn new(program: Accepted, machine: List<List<MachineInstr>>) -> Code
        requires { machine ≡ machine_units program.units program.units }
        ensures { result ≡ program }
    {
        Code { program, machine }
    }

    /// The program that it is the code of.
    pub fn program(&self) -> &Accepted
        ensures { result.now ≡ self.now }
    {
        &self.program
    }

    /// What the machine runs for each unit. Without what only running it takes, this is the unit's code.
    pub fn machine(&self) -> &[List<MachineInstr>]
        ensures value { result.now ≡ machine_units self.now.units self.now.units }
        ensures published { map published_all result.now ≡ map (λ (u : CodeUnit). u.code) (code_units self.now.units) }
    {
        self.machine.as_slice()
    }

    /// The number of the unit of the function `main`.
    pub fn main(&self) -> u32
        ensures { result ≡ self.now.main }
    {
        self.program.main()
    }
}
